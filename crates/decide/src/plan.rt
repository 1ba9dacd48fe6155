// Whom a message makes the module look for, and what comes of what was found ("Direct commands", "Groups").
ghost use Rattle.std.specs.Prelude.{◌≡◌};
ghost use Rattle.decide.specs.Decide.{is_open, needs_no_link, direct_wanted, sender_in_group, broadcast_wanted, wanted_of, direct_plan, plan_of};

use crate::dispatch::deed_of;
use crate::groups::{broadcast_plan, cleanup_plan, is_call};
use links::memory::Link;
use links::search::{Missing, Wanted};
use module::plan::Plan;
use module::state::Module;
use reply::due::{Due, ReplyType};
use results::Outcome;
use wire::address::Address;
use wire::command::{Command, GroupCommand, Standard};
use wire::kind::MessageKind;
use wire::request::Request;

// Whose record the search is to look for.
pub(crate) fn wanted_of(kind: MessageKind) -> Option<Wanted>
    ensures { result ≡ wanted_of kind }
{
    match kind {
        MessageKind::Direct(r, command) => direct_wanted(r, command),
        MessageKind::Cleanup(r, _) => sender_in_group(r),
        MessageKind::Broadcast(from, to, command) => broadcast_wanted(from, to, command),
        MessageKind::Foreign => None,
    }
}

#[tactic(auto, unfolding(basis::specs::Choice::choose))]
fn direct_wanted(r: Request, command: Command) -> Option<Wanted>
    ensures { result ≡ direct_wanted r command }
{
    if needs_no_link(command) {
        None
    } else {
        Some(Wanted::Sender(r.from))
    }
}

// A cleanup has its group in Command 2.
fn sender_in_group(r: Request) -> Option<Wanted>
    ensures { result ≡ sender_in_group r }
{
    let from = r.from;
    Some(Wanted::Responder(from, r.command2))
}

#[tactic(auto, unfolding(basis::specs::Choice::choose))]
fn broadcast_wanted(from: Address, to: Address, command: GroupCommand) -> Option<Wanted>
    ensures { result ≡ broadcast_wanted from to command }
{
    if is_call(to, command) {
        Some(Wanted::Responder(from, to.low))
    } else {
        None
    }
}

fn needs_no_link(command: Command) -> bool
    ensures { result ≡ needs_no_link command }
{
    match command {
        Command::Standard(s) => is_open(s),
        Command::Extended(_) => false,
    }
}

// A standard ping or ID request.
fn is_open(command: Standard) -> bool
    ensures { result ≡ is_open command }
{
    matches!(command, Standard::Open(_))
}

// What comes of a message, with the data bytes beside it, of what the search found, and with `records` records in link memory.
pub(crate) fn plan_of(
    m: Module,
    kind: MessageKind,
    data: [u8; 14],
    records: usize,
    found: Result<Link, Missing>,
) -> Plan
    ensures { result ≡ plan_of m kind «data» records found }
{
    let load = m.load;
    match kind {
        MessageKind::Direct(r, command) => direct_plan(m, r, data, records, command, found),
        MessageKind::Cleanup(r, command) => cleanup_plan(load, r, command, found),
        MessageKind::Broadcast(_, _, command) => broadcast_plan(load, command, found),
        MessageKind::Foreign => Plan::refused(Outcome::Foreign, Due::Nothing),
    }
}

#[tactic(auto, unfolding(crate::specs::Decide::direct_plan, basis::specs::Choice::choose))]
fn direct_plan(
    m: Module,
    r: Request,
    data: [u8; 14],
    records: usize,
    command: Command,
    found: Result<Link, Missing>,
) -> Plan
    ensures { result ≡ direct_plan m r «data» records command found }
{
    // One call, as the search has: a compiler then keeps the plan in registers.
    if needs_no_link(command) | found.is_ok() {
        let deed = deed_of(m, r, data, records, command);
        return deed.plan(m, r);
    }
    Plan::unlinked(ReplyType::Nak, r)
}
