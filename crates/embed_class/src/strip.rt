// A row of modules held as bytes: their images, each directly behind the one before it.
ghost use Rattle.std.specs.Prelude.{◌≡◌, ◌≤◌, length, take, map};
ghost use Rattle.std.specs.List.{list_all};
ghost use Rattle.image.specs.Image.{is_image, module_of};
ghost use Rattle.embed_class.specs.Row.{is_row, address_in};

use image::held::is_image;
use image::places::{HIGH, LENGTH, LOW, MIDDLE};
use wire::address::Address;

// Whether these bytes are so many images, and nothing else.
#[tactic(auto, using(crate::proofs::Images::no_row, crate::proofs::Images::row_by_images, crate::proofs::Images::all_chunks))]
pub(crate) fn is_row(images: &[u8], count: usize) -> bool
    ensures { result ≡ is_row count images.now }
{
    let (each, rest) = images.as_chunks::<LENGTH>();
    if rest.len() != 0 {
        return false;
    }
    if each.len() != count {
        return false;
    }
    are_images(each)
}

fn are_images(each: &[[u8; LENGTH]]) -> bool
    ensures { result ≡ list_all (λ image. is_image image) each.now }
{
    each.iter().all(|image| is_image(image))
}

// The addresses of the modules, in the first places.
pub(crate) fn names_of(each: &[[u8; LENGTH]]) -> [Address; 16]
    requires { length each.now ≤ 16 }
    ensures { take (length each.now) result ≡ map address_in each.now }
{
    let mut names = [Address::default(); 16];
    for (i, image) in each.iter().enumerate() {
        names[i] = address_in(image);
    }
    names
}

// Three lines that `image` has for a whole identity: a public function of it for them would be longer.
fn address_in(image: &[u8; LENGTH]) -> Address
    ensures { result ≡ address_in image.now }
{
    Address {
        high: image[HIGH],
        middle: image[MIDDLE],
        low: image[LOW],
    }
}
