// The table of a kind: the rows that are its own, and the others as every kind has them ("Direct commands").
ghost use Rattle.std.specs.Prelude.{◌≡◌};
ghost use Rattle.load.specs.Table.{Own, properties_entry, standard_entry, extended_entry, entry_of};

use crate::entry::{Entry, LoadEntry, stays};
use wire::command::{Command, Extended, Standard};
use wire::request::Request;

// What a kind has of its own. A load is of a type of this crate, so a kind is a type of its own crate that names one.
pub trait Kind {
    type Load;

    ghost own: { Own Self.Load };

    // Standard commands to the load.
    fn load_entry(load: Self::Load, r: Request) -> LoadEntry<Self::Load>
        ensures { result ≡ own.load_entry load r };

    // 2E, where Command 2 is 00.
    fn property_entry(load: Self::Load, data: [u8; 14]) -> LoadEntry<Self::Load>
        ensures { result ≡ own.property_entry load «data» };

    // Other extended commands to the load.
    fn second_entry(load: Self::Load, r: Request, data: [u8; 14]) -> LoadEntry<Self::Load>
        ensures { result ≡ own.second_entry load r «data» };
}

// With the data bytes beside the command.
pub fn entry_of<K: Kind>(
    load: K::Load,
    r: Request,
    data: [u8; 14],
    command: Command,
) -> LoadEntry<K::Load>
    ensures { result ≡ entry_of K.own load r «data» command }
{
    match command {
        Command::Standard(s) => standard_entry::<K>(load, r, s),
        Command::Extended(e) => extended_entry::<K>(load, r, data, e),
    }
}

fn standard_entry<K: Kind>(load: K::Load, r: Request, command: Standard) -> LoadEntry<K::Load>
    ensures { result ≡ standard_entry K.own load r command }
{
    match command {
        Standard::Open(_) => stays(load, Entry::Shared),
        Standard::Module(_) => stays(load, Entry::Shared),
        Standard::Load => K::load_entry(load, r),
    }
}

fn extended_entry<K: Kind>(
    load: K::Load,
    r: Request,
    data: [u8; 14],
    command: Extended,
) -> LoadEntry<K::Load>
    ensures { result ≡ extended_entry K.own load r «data» command }
{
    match command {
        Extended::SetFlags => stays(load, Entry::Shared),
        Extended::Properties => properties_entry::<K>(load, r, data),
        Extended::Database => stays(load, Entry::Shared),
        Extended::Load => K::second_entry(load, r, data),
    }
}

// Command 2 must be 00.
#[tactic(auto, unfolding(crate::specs::Table::properties_entry, basis::specs::Choice::choose))]
fn properties_entry<K: Kind>(load: K::Load, r: Request, data: [u8; 14]) -> LoadEntry<K::Load>
    ensures { result ≡ properties_entry K.own load r «data» }
{
    match r.command2 {
        0x00 => K::property_entry(load, data),
        _ => stays(load, Entry::Shared),
    }
}
