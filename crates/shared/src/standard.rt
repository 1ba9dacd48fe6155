// What a standard direct command does to every module ("Direct commands, standard").
ghost use Rattle.std.specs.Prelude.{◌≡◌};
ghost use Rattle.shared.specs.Standard.{open_deed, flags_told, module_deed, standard_deed};

use module::change::Change;
use module::deed::{Ack, Deed};
use module::state::Module;
use wire::command::{ModuleCommand, OpenCommand, Standard};
use wire::request::Request;

pub(crate) fn standard_deed(m: Module, r: Request, command: Standard) -> Deed
    ensures { result ≡ standard_deed m r command }
{
    match command {
        Standard::Open(c) => open_deed(c),
        Standard::Module(c) => module_deed(m, r, c),
        Standard::Load => Deed::Unlisted,
    }
}

fn open_deed(command: OpenCommand) -> Deed
    ensures { result ≡ open_deed command }
{
    match command {
        OpenCommand::Ping => Deed::acked(Change::Nothing),
        OpenCommand::IdRequest => Deed::answered(Ack::WithId),
    }
}

fn module_deed(m: Module, r: Request, command: ModuleCommand) -> Deed
    ensures { result ≡ module_deed m r command }
{
    match command {
        ModuleCommand::EngineVersion => Deed::answered(Ack::Telling(0x02)),
        ModuleCommand::ReadFlags => flags_told(m, r.command2),
        ModuleCommand::Beep => Deed::acked(Change::Nothing),
    }
}

// 1F: Command 2 says what is asked for.
#[tactic(auto, using(basis::proofs::Table::missed), unfolding(crate::specs::Standard::flags_told, basis::specs::Choice::choose))]
fn flags_told(m: Module, command2: u8) -> Deed
    ensures { result ≡ flags_told m command2 }
{
    match command2 {
        0x00 => Deed::answered(Ack::Telling(m.flags)),
        0x01 => Deed::answered(Ack::Telling(m.delta)),
        _ => Deed::Unlisted,
    }
}
