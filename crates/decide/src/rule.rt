// What is decided of a message before the reply room is looked at: refusals 2, 1, 3, 4, 8, 6, 7, in this order ("Result numbers").
ghost use Rattle.std.specs.Prelude.{◌≡◌};
ghost use Rattle.decide.specs.Ruling.{silence, kind_ruling, read_ruling, ruling_by};

use crate::plan::{plan_of, wanted_of};
use links::memory::{is_fit, records};
use links::search::search;
use module::plan::Plan;
use module::state::Module;
use reply::due::Due;
use results::Outcome;
use wire::kind::{Message, MessageKind, Unread};

// The plan, and how many records were read for it.
#[derive(Clone, Copy)]
pub struct Ruling {
    pub plan: Plan,
    pub read: usize,
}

// Of a message as it was read.
#[tactic(auto, unfolding(crate::specs::Ruling::ruling_by, basis::specs::Choice::choose))]
pub fn ruling_by(m: Module, links: &[u8], message: Message) -> Ruling
    ensures { result ≡ ruling_by m links.now message }
{
    if !is_fit(links) {
        return silence(Outcome::BadMemory);
    }
    read_ruling(m, links, message)
}

fn read_ruling(m: Module, links: &[u8], message: Message) -> Ruling
    ensures { result ≡ read_ruling m links.now message.«data» message.reading }
{
    match message.reading {
        Ok(kind) => kind_ruling(m, links, kind, message.data),
        Err(Unread::BadLength) => silence(Outcome::BadLength),
        Err(Unread::BadSum) => silence(Outcome::BadSum),
    }
}

// The search that the kind asks for decides.
fn kind_ruling(m: Module, links: &[u8], kind: MessageKind, data: [u8; 14]) -> Ruling
    ensures { result ≡ kind_ruling m links.now «data» kind }
{
    let searched = search(links, wanted_of(kind));
    let plan = plan_of(m, kind, data, records(links), searched.found);
    Ruling {
        plan,
        read: searched.read,
    }
}

// Refused with no search and no reply.
fn silence(outcome: Outcome) -> Ruling
    ensures { result ≡ silence outcome }
{
    let plan = Plan::refused(outcome, Due::Nothing);
    Ruling { plan, read: 0 }
}
