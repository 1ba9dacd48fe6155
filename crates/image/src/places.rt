// Where an image has what. One length for every kind: seat k of a class begins at k times the length, and a kind more moves no place.
// The Rust wrapper reads this file as it is; specs/Places.antt has the same names, and dreelish.h with DREELISH_ before them.
pub const LENGTH: usize = 64;

// The kinds that there are, by the numbers that C writes.
pub const DIMMER: u8 = 0x01;

pub const OUTLET: u8 = 0x02;

// What every kind has: who it is,
pub const KIND: usize = 0;

pub const HIGH: usize = 1;

pub const MIDDLE: usize = 2;

pub const LOW: usize = 3;

pub const CATEGORY: usize = 4;

pub const SUBCATEGORY: usize = 5;

pub const FIRMWARE: usize = 6;

pub const REVISION: usize = 7;

// and what a message may alter.
pub const FLAGS: usize = 8;

pub const LED: usize = 11;

pub const HOUSE: usize = 12;

pub const UNIT: usize = 13;

pub const DELTA: usize = 14;

// The load of a dimmer,
pub const LEVEL: usize = 16;

pub const RAMP: usize = 17;

pub const ON_LEVEL: usize = 18;

// and of an outlet.
pub const TOP: usize = 16;

pub const BOTTOM: usize = 17;
