// A dimmer's own rows.
ghost use Rattle.dimmer.specs.Table.{own};

use crate::{commands, properties};
use load::entry::{Entry, LoadEntry, stays};
use load::state::Lamp;
use load::table::Kind;
use wire::request::Request;

// The kind whose load is a lamp.
pub struct Dimmer;

impl Kind for Dimmer {
    type Load = Lamp;

    ghost own = { own };

    fn load_entry(lamp: Lamp, r: Request) -> LoadEntry<Lamp> {
        commands::load_entry(lamp, r)
    }

    fn property_entry(lamp: Lamp, data: [u8; 14]) -> LoadEntry<Lamp> {
        properties::property_entry(lamp, data)
    }

    fn second_entry(lamp: Lamp, _: Request, _: [u8; 14]) -> LoadEntry<Lamp> {
        stays(lamp, Entry::Unlisted)
    }
}
