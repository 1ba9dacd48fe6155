// What a standard command does to a dimmer's lamp ("Direct commands, standard"). It shares no row with an outlet's, so that a common table
// of rows would be no plainer.
ghost use Rattle.std.specs.Prelude.{◌≡◌};
ghost use Rattle.dimmer.specs.Load.{at_level, status_entry, percent_entry, load_entry};

use crate::levels::{high_then_f, level_of, lowered, percent_of, raised};
use load::entry::{Entry, LoadEntry, becomes, stays};
use load::state::Lamp;
use wire::request::Request;

#[tactic(auto, using(basis::proofs::Table::missed), unfolding(crate::specs::Load::load_entry, basis::specs::Choice::choose))]
pub(crate) fn load_entry(lamp: Lamp, r: Request) -> LoadEntry<Lamp>
    ensures { result ≡ load_entry lamp r }
{
    match r.command1 {
        0x11 => at_level(lamp, r.command2),
        0x12 => at_level(lamp, r.command2),
        0x21 => at_level(lamp, r.command2),
        0x13 => at_level(lamp, 0x00),
        0x14 => at_level(lamp, 0x00),
        0x15 => at_level(lamp, raised(lamp.level)),
        0x16 => at_level(lamp, lowered(lamp.level)),
        0x19 => status_entry(lamp, r.command2),
        0x2e => at_level(lamp, high_then_f(r.command2)),
        0x2f => at_level(lamp, 0x00),
        0x39 => percent_entry(lamp, r.command2),
        _ => stays(lamp, Entry::Unlisted),
    }
}

// The lamp takes a level.
fn at_level(lamp: Lamp, level: u8) -> LoadEntry<Lamp>
    ensures { result ≡ at_level lamp level }
{
    becomes(Lamp { level, ..lamp })
}

// 19: Command 2 says what is shown.
#[tactic(auto, using(basis::proofs::Table::missed), unfolding(crate::specs::Load::status_entry, basis::specs::Choice::choose))]
fn status_entry(lamp: Lamp, command2: u8) -> LoadEntry<Lamp>
    ensures { result ≡ status_entry lamp command2 }
{
    match command2 {
        0x00 => stays(lamp, Entry::Shows(lamp.level)),
        0x06 => stays(lamp, Entry::Shows(percent_of(lamp.level))),
        _ => stays(lamp, Entry::Unlisted),
    }
}

// 39: Command 2 is per cent.
#[tactic(auto, unfolding(crate::specs::Load::percent_entry, basis::specs::Choice::choose))]
fn percent_entry(lamp: Lamp, command2: u8) -> LoadEntry<Lamp>
    ensures { result ≡ percent_entry lamp command2 }
{
    match command2 {
        0x00..=0x64 => at_level(lamp, level_of(command2)),
        _ => stays(lamp, Entry::Unlisted),
    }
}
