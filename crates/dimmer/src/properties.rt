// 2E: a dimmer's own properties ("Direct commands, extended").
ghost use Rattle.std.specs.Prelude.{◌≡◌};
ghost use Rattle.dimmer.specs.Properties.{ramp_entry, property_entry};

use load::entry::{Entry, LoadEntry, Properties, becomes, stays};
use load::state::Lamp;

// Data 2 says what is asked for, and Data 3 is the new value.
#[tactic(auto, using(basis::proofs::Table::missed), unfolding(crate::specs::Properties::property_entry, basis::specs::Choice::choose))]
pub(crate) fn property_entry(lamp: Lamp, data: [u8; 14]) -> LoadEntry<Lamp>
    ensures { result ≡ property_entry lamp «data» }
{
    let what = data[1];
    let x = data[2];
    match what {
        0x00 => stays(
            lamp,
            Entry::Shown(Properties {
                ramp: lamp.ramp,
                on_level: lamp.on_level,
            }),
        ),
        0x05 => ramp_entry(lamp, x),
        0x06 => becomes(Lamp {
            on_level: x,
            ..lamp
        }),
        _ => stays(lamp, Entry::Shared),
    }
}

#[tactic(auto, unfolding(crate::specs::Properties::ramp_entry, basis::specs::Choice::choose))]
fn ramp_entry(lamp: Lamp, ramp: u8) -> LoadEntry<Lamp>
    ensures { result ≡ ramp_entry lamp ramp }
{
    match ramp {
        0x00..=0x1f => becomes(Lamp { ramp, ..lamp }),
        _ => stays(lamp, Entry::Unlisted),
    }
}
