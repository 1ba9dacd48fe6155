// What a case is played on: a module, its link memory, the room, and what came out of the last message.
use crate::compare::Mismatch;
use crate::text::{Spelling, bytes_in, number_in};
use crate::values::with_named;
use arrayvec::ArrayVec;
use embed::call::dreelish_step;
use image::places;

// As long as the longest reply ("The program").
const ROOM: usize = 5897;

// What the room holds before a message.
pub(crate) const BLANK: u8 = 0xee;

// What a byte holds that no value of a fresh module stands at, so that a write there would be shown.
const UNUSED: u8 = 0xa5;

// A module, byte by byte.
pub(crate) type Image = [u8; places::LENGTH];

// Word for word the `Kind` of `roster`, on which this program does not stand: it has no need of the words and rows there.
#[derive(Clone, Copy)]
pub(crate) enum Kind {
    Dimmer,
    Outlet,
}

// A fresh module, but for the seven bytes that say who it is.
fn fresh(kind: Kind) -> Image {
    let mut image = [UNUSED; places::LENGTH];
    image[places::FLAGS] = 0x00;
    image[places::LED] = 0x3f;
    image[places::HOUSE] = 0x20;
    image[places::UNIT] = 0x20;
    image[places::DELTA] = 0x00;
    match kind {
        Kind::Dimmer => {
            image[places::KIND] = places::DIMMER;
            image[places::LEVEL] = 0x00;
            image[places::RAMP] = 0x1f;
            image[places::ON_LEVEL] = 0xff;
        }
        Kind::Outlet => {
            image[places::KIND] = places::OUTLET;
            image[places::TOP] = 0x00;
            image[places::BOTTOM] = 0x00;
        }
    }
    image
}

#[derive(Drop)]
pub(crate) struct State {
    pub module: Image,
    pub links: ArrayVec<u8, 2056>,
    // A link memory longer than that was asked for: nothing is heard then. The bytes stay for a later `fill`, so that this is no Option.
    pub is_overlong: bool,
}

impl State {
    fn new() -> State {
        State {
            module: fresh(Kind::Dimmer),
            links: ArrayVec::new(),
            is_overlong: false,
        }
    }

    // By hand: the clone of an ArrayVec has an allocation's error in its type, though none can come.
    fn copy_from(&mut self, other: &State) {
        self.module = other.module;
        self.links.clear();
        let _ = self.links.try_extend_from_slice(other.links.as_slice());
        self.is_overlong = other.is_overlong;
    }
}

#[derive(Drop)]
pub(crate) struct Board {
    start: State,
    pub now: State,
    // the module before the last message
    pub before: Image,
    pub room: [u8; ROOM],
    // How much of the room is lent to a message. The rest counts too, since it has to stay as it is, and where this is more than there
    // is, nothing is heard: so it is no length of the room.
    lent: usize,
    // Numbers, and no names for them: `dreelish_step`, which C calls too, gives a message's result and its report so.
    pub result: u64,
    pub report: [u64; 2],
}

impl Board {
    pub(crate) fn new() -> Board {
        Board {
            start: State::new(),
            now: State::new(),
            before: fresh(Kind::Dimmer),
            room: [BLANK; ROOM],
            lent: ROOM,
            result: 0,
            report: [0; 2],
        }
    }

    pub(crate) fn identify(&mut self, kind: Kind, line: &[u8]) {
        let mut module = fresh(kind);
        let identity = &mut module[places::HIGH..=places::REVISION];
        for (byte, spelled) in identity.iter_mut().zip(Spelling(line)) {
            *byte = spelled.value();
        }
        self.now.module = module;
    }

    // The values that a line names, and the others as they are.
    pub(crate) fn set_values(&mut self, line: &[u8]) -> Result<(), Mismatch<'static>> {
        self.now.module = with_named(&self.now.module, line).ok_or(Mismatch::NotUnderstood)?;
        Ok(())
    }

    pub(crate) fn set_links(&mut self, line: &[u8]) {
        self.now.links = bytes_in(line);
        self.now.is_overlong = false;
    }

    // The link memory cut, or with 00 behind.
    pub(crate) fn fill(&mut self, line: &[u8]) {
        let size = number_in(line);
        let links = &mut self.now.links;
        self.now.is_overlong = size > links.capacity();
        if self.now.is_overlong {
            return;
        }
        links.truncate(size);
        for _ in links.len()..size {
            let _ = links.try_push(0x00);
        }
    }

    pub(crate) fn keep(&mut self) {
        self.start.copy_from(&self.now);
    }

    pub(crate) fn begin(&mut self) {
        self.now.copy_from(&self.start);
        self.lent = ROOM;
    }

    pub(crate) fn set_room(&mut self, line: &[u8]) {
        self.lent = number_in(line);
    }

    pub(crate) fn hear(&mut self, line: &[u8]) {
        let message: ArrayVec<u8, 64> = bytes_in(line);
        let mut room = [BLANK; ROOM];
        let mut report = [0; 2];
        let Some(lent) = room.get_mut(..self.lent) else {
            return;
        };
        if self.now.is_overlong {
            return;
        }
        let before = self.now.module;
        self.result = dreelish_step(
            &mut self.now.module,
            self.now.links.as_mut_slice(),
            message.as_slice(),
            lent,
            &mut report,
        );
        self.before = before;
        self.room = room;
        self.report = report;
    }
}
