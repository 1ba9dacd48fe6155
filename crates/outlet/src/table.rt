// An outlet's own rows (request 1).
ghost use Rattle.outlet.specs.Table.{own};

use crate::{commands, properties};
use load::entry::LoadEntry;
use load::state::Sockets;
use load::table::Kind;
use wire::request::Request;

// The kind whose load are two sockets.
pub struct Outlet;

impl Kind for Outlet {
    type Load = Sockets;

    ghost own = { own };

    fn load_entry(sockets: Sockets, r: Request) -> LoadEntry<Sockets> {
        commands::load_entry(sockets, r)
    }

    fn property_entry(sockets: Sockets, data: [u8; 14]) -> LoadEntry<Sockets> {
        properties::property_entry(sockets, data)
    }

    fn second_entry(sockets: Sockets, r: Request, data: [u8; 14]) -> LoadEntry<Sockets> {
        commands::second_entry(sockets, r, data)
    }
}
