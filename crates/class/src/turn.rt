// One seat's turn. What a seat is offered is the reading, and of link memory its own share.
ghost use Rattle.std.specs.Prelude.{◌≡◌, ◌≤◌, ◌<◌, length};
ghost use Rattle.device.specs.Step.{Comes};
ghost use Rattle.class.specs.Turns.{note, noted, offered, served, step_in, turn_of, Ready, Took};

use device::step::{Answer, serve};
use module::state::Module;
use row::progress::{ClassAnswer, Progress, Round, ended};
use row::settle::settle;
use wire::address::Address;
use wire::kind::Message;

// The module afterwards, and the row's progress.
#[derive(Clone, Copy)]
pub struct Tended {
    pub next: Module,
    pub progress: Progress,
}

// The round tells what the turn is for: all that a row does is decided here, and the walk along it does not look. A match and no closure,
// as the definitions match too (`turn_of`). `Ready` is asked for here, in `step_in` and in `tend`, and is no invariant of a type: it is a
// fact of the progress and of the link memory that is lent beside it.
pub(crate) fn turn(
    m: Module,
    t: Progress,
    heard: Message,
    links: &mut [u8],
    room: &mut [u8],
) -> Tended
    requires { Ready t (length links.old) }
    ensures { Took (turn_of m t heard links.old room.old)
        result.progress result.next links.new room.new }
{
    match t.round {
        Round::Note => note(m, t),
        Round::One => served(t, step_in(m, t, heard, links, room)),
        Round::All => offered(t, step_in(m, t, heard, links, room)),
    }
}

// The module stays as it was read.
fn note(m: Module, t: Progress) -> Tended
    requires { (t.seat < t.task.seats) × (t.task.seats ≤ 16) }
    ensures { result ≡ note m t }
{
    Tended {
        next: m,
        progress: noted(t, m.identity.address),
    }
}

// With the last address it is known who is to be served.
#[tactic(auto, unfolding(basis::specs::Choice::choose))]
fn noted(t: Progress, a: Address) -> Progress
    requires { (t.seat < t.task.seats) × (t.task.seats ≤ 16) }
    ensures { result ≡ noted t a }
{
    let next = t.seat + 1;
    let mut names = t.names;
    names[t.seat] = a;
    let after = Progress {
        seat: next,
        names,
        ..t
    };
    if next < t.task.seats {
        return after;
    }
    settle(after)
}

// The seat's own step, with its own share.
fn step_in(m: Module, t: Progress, heard: Message, links: &mut [u8], room: &mut [u8]) -> Answer
    requires { Ready t (length links.old) }
    ensures { Comes (step_in m t heard links.old room.old) result links.new room.new }
{
    let from = t.seat * t.task.share;
    let end = from + t.task.share;
    serve(m, &mut links[from..end], heard, room)
}

// No other seat has a turn.
fn served(t: Progress, a: Answer) -> Tended
    ensures { result ≡ served t a }
{
    let outcome = a.outcome;
    let answer = ClassAnswer::of_seat(t.seat, outcome, a.length, a.read);
    Tended {
        next: a.next,
        progress: ended(t, answer),
    }
}

// A broadcast is offered to the next seat too.
fn offered(t: Progress, a: Answer) -> Tended
    requires { (t.seat < 16) × (t.answer.read ≤ 4096) × (a.read ≤ 256) }
    ensures { result ≡ offered t a }
{
    let before = t.answer;
    let outcome = a.outcome;
    let answer = before.and_seat(outcome, before.read + a.read);
    Tended {
        next: a.next,
        progress: Progress {
            seat: t.seat + 1,
            answer,
            ..t
        },
    }
}
