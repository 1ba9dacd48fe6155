// What a command comes to by the module's load: the one place that names a kind.
ghost use Rattle.std.specs.Prelude.{◌≡◌};
ghost use Rattle.decide.specs.Dispatch.{entry_by, deed_by, deed_of, group_deed_by};

use dimmer::table::Dimmer;
use links::memory::Link;
use load::entry::{Entry, LoadEntry};
use load::state::Load;
use load::table::entry_of;
use module::change::Change;
use module::deed::{Ack, Deed};
use module::state::Module;
use outlet::table::Outlet;
use shared::properties::shown_deed;
use shared::table::shared_deed;
use wire::command::{Command, GroupCommand};
use wire::request::Request;

// A direct command, with the data bytes beside it, and `records` records in link memory. Five parameters and no struct, as in `shared`.
pub(crate) fn deed_of(
    m: Module,
    r: Request,
    data: [u8; 14],
    records: usize,
    command: Command,
) -> Deed
    ensures { result ≡ deed_of m r «data» records command }
{
    let own = entry_by(m.load, r, data, command);
    match own.entry {
        Entry::Done => Deed::acked(Change::Load(own.load)),
        Entry::Shows(x) => Deed::answered(Ack::AfterDelta(x)),
        Entry::Shown(p) => shown_deed(m, data[0], p),
        Entry::Shared => shared_deed(m, r, data, records, command),
        Entry::Unlisted => Deed::Unlisted,
    }
}

// What the kind's own table has for it.
fn entry_by(load: Load, r: Request, data: [u8; 14], command: Command) -> LoadEntry<Load>
    ensures { result ≡ entry_by load r «data» command }
{
    match load {
        Load::Dimmer(lamp) => of_kind(entry_of::<Dimmer>(lamp, r, data, command), Load::Dimmer),
        Load::Outlet(sockets) => of_kind(
            entry_of::<Outlet>(sockets, r, data, command),
            Load::Outlet,
        ),
    }
}

// A kind's own answer, as one of any kind.
fn of_kind<L, F: FnOnce(L) -> Load>(own: LoadEntry<L>, kind: F) -> LoadEntry<Load>
    requires { F.pre kind own.load }
    ensures { (F.post kind own.load result.load) × (result.entry ≡ own.entry) }
{
    LoadEntry {
        load: kind(own.load),
        entry: own.entry,
    }
}

// The load after a group's command, where its deciding record fits a row.
pub(crate) fn group_deed_by(load: Load, command: GroupCommand, link: Link) -> Option<Load>
    ensures { result ≡ group_deed_by load command link }
{
    match load {
        Load::Dimmer(lamp) => dimmer::groups::group_of(lamp, command, link).map(Load::Dimmer),
        Load::Outlet(sockets) => outlet::groups::group_of(sockets, command, link).map(Load::Outlet),
    }
}
