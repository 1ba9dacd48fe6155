// The values of a module by name, as a line gives or expects them.
use crate::board::Image;
use crate::text::byte_of;
use image::places;
use std::fmt;

// The name of an image's byte, and its place.
type Named = (&'static str, usize);

// What every kind has; kind and identity too, so that a change there would be shown.
const SHARED: [Named; 13] = [
    ("kind", places::KIND),
    ("high", places::HIGH),
    ("middle", places::MIDDLE),
    ("low", places::LOW),
    ("category", places::CATEGORY),
    ("subcategory", places::SUBCATEGORY),
    ("firmware", places::FIRMWARE),
    ("revision", places::REVISION),
    ("flags", places::FLAGS),
    ("led", places::LED),
    ("house", places::HOUSE),
    ("unit", places::UNIT),
    ("delta", places::DELTA),
];

const DIMMER: [Named; 3] = [
    ("level", places::LEVEL),
    ("ramp", places::RAMP),
    ("on-level", places::ON_LEVEL),
];

const OUTLET: [Named; 2] = [("top", places::TOP), ("bottom", places::BOTTOM)];

// The load of a kind.
fn load_of(kind: u8) -> &'static [Named] {
    match kind {
        places::OUTLET => &OUTLET,
        _ => &DIMMER,
    }
}

// An image with the values that a line names, which has names and bytes by turns behind its first word; none where it has anything else.
pub(crate) fn with_named(image: &Image, line: &[u8]) -> Option<Image> {
    let mut image = *image;
    let mut name = None;
    for word in line.split_inclusive(|c| *c == b' ').skip(1) {
        name = match name {
            None => Some(word),
            Some(spelled) => {
                set_value(&mut image, spelled, word)?;
                None
            }
        };
    }
    name.is_none().then_some(image)
}

fn set_value(image: &mut Image, name: &[u8], value: &[u8]) -> Option<()> {
    let place = place_of(image[places::KIND], name.strip_suffix(b" ")?)?;
    *image.get_mut(place)? = byte_of(value)?;
    Some(())
}

// Where the value of a name stands in an image of a kind.
fn place_of(kind: u8, name: &[u8]) -> Option<usize> {
    let mut named = SHARED.iter().chain(load_of(kind));
    let (_, place) = named.find(|(known, _)| known.as_bytes() == name)?;
    Some(*place)
}

// What is not as it was, in the form of a `then` line.
#[derive(Drop)]
pub(crate) struct Changes<'a> {
    pub before: &'a Image,
    pub came: &'a Image,
}

impl<'a> fmt::Display for Changes<'a> {
    fn fmt<W: fmt::Write>(&self, f: &mut fmt::Formatter<W>) -> fmt::Result {
        let before = self.before;
        let came = self.came;
        for (name, place) in SHARED.iter().chain(load_of(came[places::KIND])) {
            if let (Some(was), Some(is)) = (before.get(*place), came.get(*place))
                && was != is
            {
                write!(f, " {name} {is:02x}")?;
            }
        }
        Ok(())
    }
}
