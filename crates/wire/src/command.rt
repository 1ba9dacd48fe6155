// What a message asks for, by its Command 1: what every module answers alike has a name here. All else is its load's to list, by the bytes
// themselves, in the crate of its kind.
ghost use Rattle.std.specs.Prelude.{◌≡◌};
ghost use Rattle.wire.specs.Commands.{standard_of, extended_of, group_command_of};

// "Direct commands, standard": those that need no link, those that every module takes, and all others.
#[derive(Clone, Copy)]
pub enum Standard {
    Open(OpenCommand),
    Module(ModuleCommand),
    Load,
}

#[derive(Clone, Copy)]
pub enum OpenCommand {
    Ping,
    IdRequest,
}

#[derive(Clone, Copy)]
pub enum ModuleCommand {
    EngineVersion,
    ReadFlags,
    Beep,
}

// "Direct commands, extended": those that every module takes, and all others.
#[derive(Clone, Copy)]
pub enum Extended {
    SetFlags,
    Properties,
    Database,
    Load,
}

// A direct command: the same Command 1 asks for different things in a standard and in an extended message.
#[derive(Clone, Copy)]
pub enum Command {
    Standard(Standard),
    Extended(Extended),
}

// "Groups": what a broadcast or a cleanup tells its group. `Unlisted` is a command too, which a linked cleanup is answered for: no Option.
#[derive(Clone, Copy)]
pub enum GroupCommand {
    On,
    Off,
    Unlisted,
}

// From Command 1, as the three tables list it.
impl From<u8> for Standard {
    ghost from_gives = { λ command1 command. command ≡ standard_of command1 };

    #[tactic(auto, using(basis::proofs::Table::missed), unfolding(crate::specs::Commands::standards, basis::specs::Choice::choose))]
    fn from(command1: u8) -> Standard {
        match command1 {
            0x0f => Standard::Open(OpenCommand::Ping),
            0x10 => Standard::Open(OpenCommand::IdRequest),
            0x0d => Standard::Module(ModuleCommand::EngineVersion),
            0x1f => Standard::Module(ModuleCommand::ReadFlags),
            0x30 => Standard::Module(ModuleCommand::Beep),
            _ => Standard::Load,
        }
    }
}

impl From<u8> for Extended {
    ghost from_gives = { λ command1 command. command ≡ extended_of command1 };

    #[tactic(auto, using(basis::proofs::Table::missed), unfolding(crate::specs::Commands::extendeds, basis::specs::Choice::choose))]
    fn from(command1: u8) -> Extended {
        match command1 {
            0x20 => Extended::SetFlags,
            0x2e => Extended::Properties,
            0x2f => Extended::Database,
            _ => Extended::Load,
        }
    }
}

impl From<u8> for GroupCommand {
    ghost from_gives = { λ command1 command. command ≡ group_command_of command1 };

    // 11 and 12 turn on, 13 and 14 off.
    #[tactic(auto, unfolding(crate::specs::Commands::group_command_of, basis::specs::Choice::choose))]
    fn from(command1: u8) -> GroupCommand {
        match command1 {
            0x11..=0x12 => GroupCommand::On,
            0x13..=0x14 => GroupCommand::Off,
            _ => GroupCommand::Unlisted,
        }
    }
}
