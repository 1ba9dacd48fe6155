// Before the first turn: whether the row can be served at all, and whom a message is for as far as its reading tells.
ghost use Rattle.std.specs.Prelude.{◌≡◌};
ghost use Rattle.row.specs.Row.{is_row_fit};
ghost use Rattle.row.specs.Round.{scope_of_kind, scope_of, task_of, begun, opened};

use crate::outcome::ClassOutcome;
use crate::progress::{Progress, Round, Scope, Task, silent};
use links::memory::is_fit_size;
use wire::address::Address;
use wire::kind::{Message, MessageKind, Unread};

// Where the sum is wrong result 10 comes first, so that it is asked whom the message is for.
fn scope_of(reading: Result<MessageKind, Unread>) -> Scope
    ensures { result ≡ scope_of reading }
{
    match reading {
        Ok(kind) => scope_of_kind(kind),
        Err(Unread::BadLength) => Scope::Ill,
        Err(Unread::BadSum) => Scope::One,
    }
}

fn scope_of_kind(kind: MessageKind) -> Scope
    ensures { result ≡ scope_of_kind kind }
{
    match kind {
        MessageKind::Direct(_, _) => Scope::One,
        MessageKind::Cleanup(_, _) => Scope::One,
        MessageKind::Broadcast(_, _, _) => Scope::All,
        MessageKind::Foreign => Scope::Unheard,
    }
}

#[tactic(auto, unfolding(basis::specs::Choice::choose, crate::specs::Round::opened))]
pub fn open(seats: usize, bytes: usize, heard: Message) -> Progress
    ensures { result ≡ opened seats bytes heard }
{
    if is_row_fit(seats, bytes) {
        return begun(0, task_of(seats, bytes / seats, heard));
    }
    begun(seats, task_of(seats, 0, heard))
}

fn task_of(seats: usize, share: usize, heard: Message) -> Task
    ensures { result ≡ task_of seats share heard }
{
    Task {
        seats,
        share,
        scope: scope_of(heard.reading),
        to: heard.to,
    }
}

// One to sixteen seats, and equal shares that are fit: result 11 does not apply.
fn is_row_fit(seats: usize, bytes: usize) -> bool
    ensures { result ≡ is_row_fit seats bytes }
{
    if seats == 0 {
        return false;
    }
    (seats <= 16) & (bytes % seats == 0) & is_fit_size(bytes / seats)
}

// What stands for the answer until there is one is that of a row that has no turns at all.
fn begun(seat: usize, task: Task) -> Progress
    ensures { result ≡ begun seat task }
{
    Progress {
        seat,
        answer: silent(ClassOutcome::Unfit),
        round: Round::Note,
        names: [Address::default(); 16],
        task,
    }
}
