// Messages as they come over the wire: their bytes, their kinds and commands, the checksum, and the one reading.
#![tactic(auto)]

pub mod address; // three numbers
pub mod command; // what Command 1 asks for
pub mod kind; // the four kinds, and what reading comes to
pub mod read; // a message of any length, read once
pub mod request; // the sender and Commands 1 and 2
mod sum; // the checksum
