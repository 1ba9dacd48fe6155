// Where the row stands with a message. Nobody may be served before all addresses are known, so that a row is walked in rounds: in the
// first the addresses are noted, in the second seats are served.
ghost use Rattle.std.specs.Prelude.{◌≡◌};
ghost use Rattle.row.specs.Answer.{silent, of_seat, and_seat};
ghost use Rattle.row.specs.Round.{ended};

use crate::outcome::ClassOutcome;
use results::Outcome;
use wire::address::Address;

// Whom a message was for, as far as it was served.
#[derive(Clone, Copy)]
pub enum Whom {
    // By its place in the row.
    Seat(usize),
    All,
    // No Option: promises and screen go by the three cases (`is_for`, `counted_for`).
    Nobody,
}

// The outcome, the reply's length and the records read, and whom it was for.
#[derive(Clone, Copy)]
pub struct ClassAnswer {
    pub outcome: ClassOutcome,
    pub length: usize,
    pub read: usize,
    pub whom: Whom,
}

impl ClassAnswer {
    // What one seat alone answers is the answer.
    pub fn of_seat(seat: usize, outcome: Outcome, length: usize, read: usize) -> ClassAnswer
        ensures { result ≡ of_seat seat outcome length read }
    {
        ClassAnswer {
            outcome: ClassOutcome::Single(outcome),
            length,
            read,
            whom: Whom::Seat(seat),
        }
    }

    // A broadcast, with what one seat more comes to, and the records that all of them read. Nothing is sent.
    pub fn and_seat(self, outcome: Outcome, read: usize) -> ClassAnswer
        ensures { result ≡ and_seat self outcome read }
    {
        let so_far = self.outcome;
        ClassAnswer {
            outcome: so_far.joined(outcome),
            length: 0,
            read,
            ..self
        }
    }
}

// What a seat's turn is for.
#[derive(Clone, Copy)]
pub enum Round {
    // Its address is noted.
    Note,
    // It is served, and nobody else.
    One,
    // It is served, and then the next one.
    All,
}

// Whom a message is for, as far as its reading tells. No Result: its two refusals come behind result 9, so nothing is handed on by `?`.
#[derive(Clone, Copy)]
pub enum Scope {
    // Nobody, as it is too short or too long: result 1.
    Ill,
    // Nobody, as it is of no kind that is heard: result 3.
    Unheard,
    One,
    All,
}

// What stays during a message.
#[derive(Clone, Copy)]
pub struct Task {
    pub seats: usize,
    // The bytes of a share.
    pub share: usize,
    pub scope: Scope,
    pub to: Address,
}

// How far the row is with a message: what moves with each turn, and the task, which stays.
#[derive(Clone, Copy)]
pub struct Progress {
    // Whose turn it is; the number of seats where no turn is left: no Option, as `opened`, `ended` and `Ready` count by it.
    pub seat: usize,
    pub answer: ClassAnswer,
    pub round: Round,
    // The addresses of the seats before this one, and of all once they are noted. An array, as there is no heap: `seat` and `round` say how
    // many are noted.
    pub names: [Address; 16],
    pub task: Task,
}

// Nothing sent and no record read, for nobody.
pub fn silent(outcome: ClassOutcome) -> ClassAnswer
    ensures { result ≡ silent outcome }
{
    ClassAnswer {
        outcome,
        length: 0,
        read: 0,
        whom: Whom::Nobody,
    }
}

// No turn is left.
pub fn ended(t: Progress, answer: ClassAnswer) -> Progress
    ensures { result ≡ ended t answer }
{
    Progress {
        seat: t.task.seats,
        answer,
        ..t
    }
}
