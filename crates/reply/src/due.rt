// What reply is due for a message, by value ("Message bytes", "Direct commands").
ghost use Rattle.std.specs.Prelude.{◌≡◌};
ghost use Rattle.reply.specs.Message.{headed};

use wire::address::Address;
use wire::request::Request;

// What type of message a reply is; its flags byte tells it on the wire.
#[derive(Clone, Copy)]
pub enum ReplyType {
    Ack,
    Nak,
    CleanupAck,
    CleanupNak,
    IdBroadcast,
    Data,
}

// The standard message that a reply begins with, to the sender.
#[derive(Clone, Copy)]
pub struct Head {
    pub reply_type: ReplyType,
    pub to: Address,
    // The largest hop count of the request.
    pub hops: u8,
    pub command1: u8,
    pub command2: u8,
}

impl Head {
    // A standard reply to a request.
    pub fn answering(reply_type: ReplyType, r: Request, command1: u8, command2: u8) -> Head
        ensures { result ≡ headed reply_type r command1 command2 }
    {
        Head {
            reply_type,
            to: r.from,
            hops: r.hops,
            command1,
            command2,
        }
    }
}

// The records that a Get Database asks for.
#[derive(Clone, Copy)]
pub struct Asked {
    // As it was sent.
    pub data1: u8,
    pub first: usize,
    // How many at most, 0 for no limit: no Option, but the number as it was sent, which `limit` and `count_sent` take so.
    pub most: usize,
}

// The whole reply that is due.
#[derive(Clone, Copy)]
pub enum Due {
    // No Option of the others: `reply_of` says the bytes of each, and of nothing none.
    Nothing,
    // An ACK or a NAK alone.
    Alone(Head),
    // Then a broadcast of category, subcategory and firmware, and of the hardware revision.
    WithId(Head, Address, u8),
    // Then an extended message of Get Properties, with these data bytes.
    WithProperties(Head, [u8; 14]),
    // Then records.
    WithRecords(Head, Asked),
}
