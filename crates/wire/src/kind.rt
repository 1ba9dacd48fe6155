// The four kinds that a message is read into ("Message bytes").
use crate::address::Address;
use crate::command::{Command, GroupCommand};
use crate::request::Request;

#[derive(Clone, Copy)]
pub enum MessageKind {
    Direct(Request, Command),
    // The group is Command 2.
    Cleanup(Request, GroupCommand),
    // From, To, and what it tells the group.
    Broadcast(Address, Address, GroupCommand),
    // None of our business: result 3. A kind and no refusal, as the paper has four kinds, and a class asks of each whom it is for.
    Foreign,
}

// Why a message is not read.
#[derive(Clone, Copy)]
pub enum Unread {
    // Result 1.
    BadLength,
    // Result 4.
    BadSum,
}

// A message that was read: To, what it comes to, and Data 1 to Data 14 beside its kind, 00 where it has none: "What form each place takes"
// has them there.
#[derive(Clone, Copy)]
pub struct Message {
    // Nobody's address, 00 00 00, where the message is too short to say: no Option, as `named_in`, which says so, is of addresses.
    pub to: Address,
    pub reading: Result<MessageKind, Unread>,
    pub data: [u8; 14],
}
