// What a message asks for: by the kinds and commands of `wire`, of which every variant is listed, and a command to a load by its byte, as the
// tables of the kinds list it.
#![tactic(auto)]

use letters::Hex;
use std::fmt;
use std::fmt::Display;
use wire::command::{Command, Extended, GroupCommand, ModuleCommand, OpenCommand, Standard};
use wire::kind::MessageKind;

// What a load is at, a case for each kind of module.
#[derive(Clone, Copy)]
pub enum LoadShown {
    Level(u8),
    // The top one and the bottom one, on or off.
    Sockets(bool, bool),
}

impl fmt::Display for LoadShown {
    fn fmt<W: fmt::Write>(&self, f: &mut fmt::Formatter<W>) -> fmt::Result {
        match *self {
            LoadShown::Level(level) => {
                f.write_str("level")?;
                Hex(&[level]).fmt(f)
            }
            LoadShown::Sockets(top, bottom) => {
                write!(f, "top {}, bottom {}", switch(top), switch(bottom))
            }
        }
    }
}

fn switch(is_on: bool) -> &'static str {
    if is_on { "on" } else { "off" }
}

// A kind of message, by its name.
#[derive(Clone, Copy)]
pub struct KindShown(pub MessageKind);

impl fmt::Display for KindShown {
    fn fmt<W: fmt::Write>(&self, f: &mut fmt::Formatter<W>) -> fmt::Result {
        f.write_str(match self.0 {
            MessageKind::Direct(_, _) => "direct",
            MessageKind::Cleanup(_, _) => "cleanup",
            MessageKind::Broadcast(_, _, _) => "broadcast",
            MessageKind::Foreign => "other",
        })
    }
}

// What the lists for a module with such a load call a command; of no single module, any list that has it.
#[derive(Clone, Copy)]
pub struct Asked {
    pub kind: MessageKind,
    pub load: Option<LoadShown>,
}

// A foreign message is in none of the lists: its bytes alone are shown.
impl fmt::Display for Asked {
    fn fmt<W: fmt::Write>(&self, f: &mut fmt::Formatter<W>) -> fmt::Result {
        match self.kind {
            MessageKind::Direct(r, command) => {
                write!(f, " {}", direct(r.command1, command, self.load))
            }
            MessageKind::Cleanup(_, command) | MessageKind::Broadcast(_, _, command) => {
                write!(f, " {}", group_command(command))
            }
            MessageKind::Foreign => Ok(()),
        }
    }
}

const UNLISTED: &str = "(not listed)";

fn direct(command1: u8, command: Command, load: Option<LoadShown>) -> &'static str {
    match command {
        Command::Standard(Standard::Open(open)) => open_command(open),
        Command::Standard(Standard::Module(common)) => module_command(common),
        Command::Standard(Standard::Load) => load_command(command1, load),
        Command::Extended(Extended::SetFlags) => "set flags",
        Command::Extended(Extended::Properties) => "properties",
        Command::Extended(Extended::Database) => "database",
        Command::Extended(Extended::Load) => second_command(command1, load),
    }
}

fn open_command(command: OpenCommand) -> &'static str {
    match command {
        OpenCommand::Ping => "ping",
        OpenCommand::IdRequest => "ID request",
    }
}

fn module_command(command: ModuleCommand) -> &'static str {
    match command {
        ModuleCommand::EngineVersion => "engine version",
        ModuleCommand::ReadFlags => "get flags",
        ModuleCommand::Beep => "beep",
    }
}

// A command to a load stays a byte, as the kinds' tables have it: no enum lists them. An outlet has three of them.
fn load_command(command1: u8, load: Option<LoadShown>) -> &'static str {
    match (command1, load) {
        (0x11, _) => "on",
        (0x13, _) => "off",
        (0x19, _) => "status",
        (_, Some(LoadShown::Sockets(_, _))) => UNLISTED,
        (0x12, _) => "fast on",
        (0x21, _) => "set level",
        (0x14, _) => "fast off",
        (0x15, _) => "brighten",
        (0x16, _) => "dim",
        (0x2e, _) => "on at ramp rate",
        (0x2f, _) => "off at ramp rate",
        (0x39, _) => "set per cent",
        _ => UNLISTED,
    }
}

// Those to the second socket of an outlet: a dimmer has none.
fn second_command(command1: u8, load: Option<LoadShown>) -> &'static str {
    match (command1, load) {
        (_, Some(LoadShown::Level(_))) => UNLISTED,
        (0x11, _) => "on",
        (0x13, _) => "off",
        _ => UNLISTED,
    }
}

// What a broadcast or a cleanup tells its group, fast or not.
fn group_command(command: GroupCommand) -> &'static str {
    match command {
        GroupCommand::On => "on",
        GroupCommand::Off => "off",
        GroupCommand::Unlisted => UNLISTED,
    }
}
