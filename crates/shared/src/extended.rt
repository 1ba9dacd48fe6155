// What an extended direct command does to every module ("Direct commands, extended").
ghost use Rattle.std.specs.Prelude.{◌≡◌};
ghost use Rattle.shared.specs.Extended.{flags_deed, extended_deed};

use crate::database::database_deed;
use crate::flags::flagged;
use crate::properties::properties_deed;
use module::change::Change;
use module::deed::Deed;
use module::state::Module;
use wire::command::Extended;
use wire::request::Request;

// With the data bytes beside it, and `records` records in link memory.
pub(crate) fn extended_deed(
    m: Module,
    r: Request,
    data: [u8; 14],
    records: usize,
    command: Extended,
) -> Deed
    ensures { result ≡ extended_deed m r «data» records command }
{
    match command {
        Extended::SetFlags => flags_deed(m, r.command2),
        Extended::Properties => properties_deed(r, data),
        Extended::Database => database_deed(r, data, records),
        Extended::Load => Deed::Unlisted,
    }
}

// 20: Command 2 is a flag's code.
#[tactic(auto, unfolding(module::specs::Deed::limited, basis::specs::Choice::choose))]
fn flags_deed(m: Module, code: u8) -> Deed
    ensures { result ≡ flags_deed m code }
{
    match code {
        0x00..=0x0f => Deed::acked(Change::Flags(flagged(code, m.flags))),
        _ => Deed::Unlisted,
    }
}
