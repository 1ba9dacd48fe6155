// One message of a reply ("Message bytes").
ghost use Rattle.std.specs.Prelude.{◌≡◌, ◌≤◌, ◌++◌, length};
ghost use Rattle.basis.specs.Laid.{laid_if_fits};
ghost use Rattle.reply.specs.Message.{type_bits, reply_flags, data_head, head_of};

use crate::due::{Head, ReplyType};
use wire::address::Address;

impl ReplyType {
    // Type and extended bit stay; the request's largest hop count is what is left of hops and what is largest (request 4).
    pub(crate) fn flags(self, hops: u8) -> u8
        ensures { result ≡ reply_flags self hops }
    {
        self.bits() + 5 * (hops % 4)
    }

    fn bits(self) -> u8
        ensures { (result ≡ type_bits self) × (result ≤ 0xe0) }
    {
        match self {
            ReplyType::Ack => 0x20,
            ReplyType::Nak => 0xa0,
            ReplyType::CleanupAck => 0x60,
            ReplyType::CleanupNak => 0xe0,
            ReplyType::IdBroadcast => 0x80,
            ReplyType::Data => 0x10,
        }
    }
}

impl Head {
    // The message, nine bytes, from the module at this address.
    pub(crate) fn message(self, from: Address) -> [u8; 9]
        ensures { result ≡ head_of from self }
    {
        let to = self.to;
        [
            from.high,
            from.middle,
            from.low,
            to.high,
            to.middle,
            to.low,
            self.reply_type.flags(self.hops),
            self.command1,
            self.command2,
        ]
    }

    // The head of extended data to the same controller: Command 2 is 00.
    pub(crate) fn of_data(self, command1: u8) -> Head
        ensures { result ≡ data_head command1 self }
    {
        Head {
            reply_type: ReplyType::Data,
            command1,
            command2: 0x00,
            ..self
        }
    }
}

// An extended message, twenty-three bytes: its head, and fourteen bytes of data directly behind it. Nothing where it does not fit.
pub(crate) fn put_extended(room: &mut [u8], head: &[u8; 9], data: &[u8; 14])
    ensures { room.new ≡ laid_if_fits room.old (head.now ++ «data».now) }
{
    if room.len() < 23 {
        return;
    }
    basis::lay(room, head);
    basis::lay(&mut room[9..], data);
}
