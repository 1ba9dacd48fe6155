// What the deciding record of a group does to a dimmer's lamp ("Groups").
ghost use Rattle.std.specs.Prelude.{◌≡◌};
ghost use Rattle.dimmer.specs.Groups.{group_of};

use links::memory::Link;
use load::state::Lamp;
use wire::command::GroupCommand;

// The lamp afterwards, where the record fits a row.
pub fn group_of(lamp: Lamp, command: GroupCommand, link: Link) -> Option<Lamp>
    ensures { result ≡ group_of lamp command link }
{
    match command {
        GroupCommand::On => Some(Lamp {
            level: link.d1,
            ..lamp
        }),
        GroupCommand::Off => Some(Lamp {
            level: 0x00,
            ..lamp
        }),
        GroupCommand::Unlisted => None,
    }
}
