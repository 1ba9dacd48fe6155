// An address on the wire ("Message bytes").

// 00 00 00, the default, is nobody's.
#[derive(Clone, Copy, Default, PartialEq, Eq)]
pub struct Address {
    pub high: u8,
    pub middle: u8,
    pub low: u8,
}
