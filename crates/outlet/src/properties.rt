// 2E: an outlet shows the ramp and the on level of a fresh module, and has none to set (request 1).
ghost use Rattle.std.specs.Prelude.{◌≡◌};
ghost use Rattle.outlet.specs.Properties.{property_entry};

use load::entry::{Entry, LoadEntry, Properties, stays};
use load::state::{FRESH_ON_LEVEL, FRESH_RAMP, Sockets};

// Data 2 says what is asked for.
#[tactic(auto, unfolding(crate::specs::Properties::property_entry, basis::specs::Choice::choose))]
pub(crate) fn property_entry(sockets: Sockets, data: [u8; 14]) -> LoadEntry<Sockets>
    ensures { result ≡ property_entry sockets «data» }
{
    let what = data[1];
    match what {
        0x00 => stays(
            sockets,
            Entry::Shown(Properties {
                ramp: FRESH_RAMP,
                on_level: FRESH_ON_LEVEL,
            }),
        ),
        _ => stays(sockets, Entry::Shared),
    }
}
