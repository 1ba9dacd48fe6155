// What a message may alter goes back into its places; every other byte stays.
ghost use Rattle.std.specs.Prelude.{◌≡◌};
ghost use Rattle.module.specs.Module.{kind_of};
ghost use Rattle.image.specs.Image.{byte_of, load_values, with_values, stored_in, stored_if_own};

use crate::held::is_kind;
use crate::places;
use crate::places::LENGTH;
use load::state::{Lamp, Load, Sockets};
use module::state::Module;

// A module of another kind than the image's is not stored.
#[tactic(auto, unfolding(crate::specs::Image::stored_if_own, crate::specs::Image::is_image, basis::specs::Choice::choose))]
pub fn store(image: &mut [u8], m: Module)
    ensures { image.new ≡ stored_if_own image.old m }
{
    let Some(bytes) = image.as_mut_array::<LENGTH>() else {
        return;
    };
    let is_own = kind_of(m.load) == bytes[places::KIND];
    if is_kind(bytes) & is_own {
        store_values(bytes, m);
    }
}

fn kind_of(load: Load) -> u8
    ensures { result ≡ kind_of load }
{
    match load {
        Load::Dimmer(_) => places::DIMMER,
        Load::Outlet(_) => places::OUTLET,
    }
}

fn store_values(image: &mut [u8; LENGTH], m: Module)
    ensures { image.new ≡ stored_in image.old m }
{
    image[places::FLAGS] = m.flags;
    image[places::LED] = m.led;
    image[places::HOUSE] = m.house;
    image[places::UNIT] = m.unit;
    image[places::DELTA] = m.delta;
    store_load(image, m.load);
}

fn store_load(image: &mut [u8; LENGTH], load: Load)
    ensures { image.new ≡ with_values (load_values load) image.old }
{
    match load {
        Load::Dimmer(lamp) => store_lamp(image, lamp),
        Load::Outlet(sockets) => store_sockets(image, sockets),
    }
}

fn store_lamp(image: &mut [u8; LENGTH], lamp: Lamp)
    ensures { image.new ≡ with_values (load_values (Load.Dimmer lamp)) image.old }
{
    image[places::LEVEL] = lamp.level;
    image[places::RAMP] = lamp.ramp;
    image[places::ON_LEVEL] = lamp.on_level;
}

fn store_sockets(image: &mut [u8; LENGTH], sockets: Sockets)
    ensures { image.new ≡ with_values (load_values (Load.Outlet sockets)) image.old }
{
    image[places::TOP] = byte_of(sockets.top);
    image[places::BOTTOM] = byte_of(sockets.bottom);
}

// By hand, as the definition has it: with `u8::from` the proof of `store_sockets` did not close.
#[tactic(auto, unfolding(crate::specs::Image::byte_of, basis::specs::Choice::choose))]
fn byte_of(is_on: bool) -> u8
    ensures { result ≡ byte_of is_on }
{
    if is_on { 0x01 } else { 0x00 }
}
