// What comes of broadcasts and cleanups ("Groups").
ghost use Rattle.std.specs.Prelude.{◌≡◌};
ghost use Rattle.decide.specs.Groups.{is_call, unconcerned, broadcast_by, broadcast_plan, cleanup_by, cleanup_plan};

use crate::dispatch::group_deed_by;
use links::memory::Link;
use links::search::Missing;
use load::state::Load;
use module::change::Change;
use module::plan::Plan;
use reply::due::{Due, Head, ReplyType};
use results::Outcome;
use wire::address::Address;
use wire::command::GroupCommand;
use wire::request::Request;

// A broadcast calls a group.
pub(crate) fn is_call(to: Address, command: GroupCommand) -> bool
    ensures { result ≡ is_call to command }
{
    match command {
        GroupCommand::On | GroupCommand::Off => (to.high == 0x00) & (to.middle == 0x00),
        GroupCommand::Unlisted => false,
    }
}

pub(crate) fn broadcast_plan(
    load: Load,
    command: GroupCommand,
    found: Result<Link, Missing>,
) -> Plan
    ensures { result ≡ broadcast_plan load command found }
{
    match found {
        Ok(link) => broadcast_by(group_deed_by(load, command, link)),
        Err(_) => unconcerned(),
    }
}

// By the load afterwards, where the record fits a row.
fn broadcast_by(next: Option<Load>) -> Plan
    ensures { result ≡ broadcast_by next }
{
    match next {
        Some(load) => Plan::done(Change::Load(load), Due::Nothing),
        None => unconcerned(),
    }
}

// Result 8.
fn unconcerned() -> Plan
    ensures { result ≡ unconcerned }
{
    Plan::refused(Outcome::Unconcerned, Due::Nothing)
}

pub(crate) fn cleanup_plan(
    load: Load,
    r: Request,
    command: GroupCommand,
    found: Result<Link, Missing>,
) -> Plan
    ensures { result ≡ cleanup_plan load r command found }
{
    match found {
        Ok(link) => cleanup_by(r, group_deed_by(load, command, link)),
        Err(_) => Plan::unlinked(ReplyType::CleanupNak, r),
    }
}

fn cleanup_by(r: Request, next: Option<Load>) -> Plan
    ensures { result ≡ cleanup_by r next }
{
    match next {
        Some(load) => Plan::done(
            Change::Load(load),
            Due::Alone(Head::answering(ReplyType::CleanupAck, r, r.command1, r.command2)),
        ),
        None => Plan::unlisted(ReplyType::CleanupNak, r),
    }
}
