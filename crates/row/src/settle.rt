// After the first round all addresses are known: refusals 9, 1, 3 and 10, in this order, or who is to be served.
ghost use Rattle.std.specs.Prelude.{◌≡◌, ◌≤◌};
ghost use Rattle.row.specs.Round.{second_round, settled, noticed, settled_if_few};

use crate::names::{is_doubled, seat_named};
use crate::open::open;
use crate::outcome::ClassOutcome;
use crate::progress::{ClassAnswer, Progress, Round, Scope, Whom, ended, silent};
use results::Outcome;
use wire::address::Address;
use wire::kind::Message;

// For whoever has the addresses together, and not a row that is lent: the first round is over at once. Seats beside the array, as more than
// sixteen are refused with their result.
#[tactic(auto, using(crate::proofs::Fit::fit), unfolding(basis::specs::Choice::choose, crate::specs::Round::opened, crate::specs::Round::noticed))]
pub fn noticed(names: [Address; 16], seats: usize, bytes: usize, heard: Message) -> Progress
    ensures { result ≡ noticed names seats bytes heard }
{
    let t = open(seats, bytes, heard);
    if t.seat < seats {
        return settled(Progress {
            seat: t.task.seats,
            names,
            ..t
        });
    }
    t
}

// For whoever has noted the addresses one by one.
#[tactic(auto, unfolding(basis::specs::Choice::choose))]
pub fn settle(t: Progress) -> Progress
    ensures { result ≡ settled_if_few t }
{
    if 16 < t.task.seats {
        return ended(t, silent(ClassOutcome::Unfit));
    }
    settled(t)
}

// That there are no more than sixteen is asked for here, and in `class` twice, and is no ghost field of `Task`: the definitions that the
// theorems on classes go over build tasks of any number of seats (`opened`), to say what is answered then.
fn settled(t: Progress) -> Progress
    requires { t.task.seats ≤ 16 }
    ensures { result ≡ settled t }
{
    let seated = &t.names[..t.task.seats];
    if is_doubled(seated) {
        return ended(t, silent(ClassOutcome::Doubled));
    }
    match t.task.scope {
        Scope::Ill => ended(t, silent(ClassOutcome::Single(Outcome::BadLength))),
        Scope::Unheard => ended(t, silent(ClassOutcome::Single(Outcome::Foreign))),
        Scope::One => match seat_named(seated, t.task.to) {
            Some(seat) => second_round(t, seat, Round::One, Whom::Seat(seat)),
            None => ended(t, silent(ClassOutcome::NoSeat)),
        },
        Scope::All => second_round(t, 0, Round::All, Whom::All),
    }
}

// Nobody has acted yet.
fn second_round(t: Progress, seat: usize, round: Round, whom: Whom) -> Progress
    ensures { result ≡ second_round t seat round whom }
{
    let none = silent(ClassOutcome::Single(Outcome::Unconcerned));
    let answer = ClassAnswer { whom, ..none };
    Progress {
        seat,
        answer,
        round,
        ..t
    }
}
