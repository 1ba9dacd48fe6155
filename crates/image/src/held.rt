// The module that an image holds.
ghost use Rattle.std.specs.Prelude.{◌≡◌, false, get_or};
ghost use Rattle.basis.specs.Table.{among};
ghost use Rattle.image.specs.Places.{KIND};
ghost use Rattle.image.specs.Image.{kinds, is_image, load_of, module_of, held_in};

use crate::places;
use crate::places::LENGTH;
use load::state::{Lamp, Load, Sockets};
use module::state::{Identity, Module};
use wire::address::Address;

// None where it is no image.
#[tactic(auto, unfolding(crate::specs::Image::held_in, crate::specs::Image::is_image, basis::specs::Choice::choose))]
pub fn held_in(image: &[u8]) -> Option<Module>
    ensures { result ≡ held_in image.now }
{
    let bytes = image.as_array::<LENGTH>()?;
    is_kind(bytes).then(|| module_of(bytes))
}

// Whether it has the length of images, is of a kind that there is, and can be that kind's.
#[tactic(auto, unfolding(crate::specs::Image::is_image))]
pub fn is_image(image: &[u8]) -> bool
    ensures { result ≡ is_image image.now }
{
    image.as_array::<LENGTH>().is_some_and(is_kind)
}

// Any byte can be a dimmer's; a socket is 00 or 01.
#[tactic(auto, using(basis::proofs::Table::missed), unfolding(basis::specs::Choice::choose))]
pub(crate) fn is_kind(image: &[u8; LENGTH]) -> bool
    ensures { result ≡ among (get_or image.now KIND 0) false (kinds image.now) }
{
    let kind = image[places::KIND];
    match kind {
        places::DIMMER => true,
        places::OUTLET => (image[places::TOP] <= 0x01) & (image[places::BOTTOM] <= 0x01),
        _ => false,
    }
}

fn module_of(image: &[u8; LENGTH]) -> Module
    ensures { result ≡ module_of image.now }
{
    Module {
        identity: identity_of(image),
        flags: image[places::FLAGS],
        led: image[places::LED],
        house: image[places::HOUSE],
        unit: image[places::UNIT],
        delta: image[places::DELTA],
        load: load_of(image),
    }
}

fn identity_of(image: &[u8; LENGTH]) -> Identity
    ensures { result ≡ (module_of image.now).identity }
{
    Identity {
        address: Address {
            high: image[places::HIGH],
            middle: image[places::MIDDLE],
            low: image[places::LOW],
        },
        category: image[places::CATEGORY],
        subcategory: image[places::SUBCATEGORY],
        firmware: image[places::FIRMWARE],
        revision: image[places::REVISION],
    }
}

// What is no outlet is a dimmer, as an image is of one of the two.
#[tactic(auto, unfolding(crate::specs::Image::load_of, basis::specs::Choice::choose))]
fn load_of(image: &[u8; LENGTH]) -> Load
    ensures { result ≡ load_of image.now }
{
    let kind = image[places::KIND];
    match kind {
        places::OUTLET => Load::Outlet(Sockets {
            top: image[places::TOP] == 0x01,
            bottom: image[places::BOTTOM] == 0x01,
        }),
        _ => Load::Dimmer(Lamp {
            level: image[places::LEVEL],
            ramp: image[places::RAMP],
            on_level: image[places::ON_LEVEL],
        }),
    }
}
