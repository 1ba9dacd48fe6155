// Who asks, how far its message goes, and by which command bytes: all of a message that its reply repeats ("Message bytes").
use crate::address::Address;

#[derive(Clone, Copy)]
pub struct Request {
    pub from: Address,
    // The largest hop count, bits 1 and 0 of the flags.
    pub hops: u8,
    pub command1: u8,
    pub command2: u8,
}
