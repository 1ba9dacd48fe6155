// What the deciding record of a group does to an outlet: its D3 names the socket (request 1).
ghost use Rattle.std.specs.Prelude.{◌≡◌};
ghost use Rattle.outlet.specs.Groups.{socket_group, group_of};

use links::memory::Link;
use load::state::Sockets;
use wire::command::GroupCommand;

// The sockets afterwards, where the record fits a row.
pub fn group_of(sockets: Sockets, command: GroupCommand, link: Link) -> Option<Sockets>
    ensures { result ≡ group_of sockets command link }
{
    match command {
        GroupCommand::On => socket_group(sockets, link.d3, link.d1 != 0x00),
        GroupCommand::Off => socket_group(sockets, link.d3, false),
        GroupCommand::Unlisted => None,
    }
}

// 01 is the top socket and 02 the bottom one; a record with another D3 is not listed.
#[tactic(auto, using(basis::proofs::Table::missed), unfolding(crate::specs::Groups::socket_group, basis::specs::Choice::choose))]
fn socket_group(sockets: Sockets, which: u8, is_on: bool) -> Option<Sockets>
    ensures { result ≡ socket_group sockets which is_on }
{
    match which {
        0x01 => Some(Sockets {
            top: is_on,
            ..sockets
        }),
        0x02 => Some(Sockets {
            bottom: is_on,
            ..sockets
        }),
        _ => None,
    }
}
