// The whole reply: measured, and then laid into the lent room, each message directly after the one before it ("Message bytes").
ghost use Rattle.std.specs.Prelude.{◌++◌};
ghost use Rattle.reply.specs.declared.due.ReplyType.{ReplyType};
ghost use Rattle.reply.specs.Message.{standard, extended, head_of, data_bytes};
ghost use Rattle.reply.specs.Records.{sent_records};
ghost use Rattle.reply.specs.Reply.{reply_of};
ghost use Rattle.reply.specs.Sending.{Sending};

use crate::due::{Asked, Due, Head, ReplyType};
use crate::message::put_extended;
use crate::records::put_records;
use wire::address::Address;

// The room is shorter than the whole reply; it was left as it was.
#[derive(Clone, Copy)]
pub struct TooShort;

// What the module at address `own` sends, and its length.
pub fn send(room: &mut [u8], own: Address, links: &[u8], due: Due) -> Result<usize, TooShort>
    ensures { Sending (reply_of own links.now due) room.old result room.new }
{
    match due {
        Due::Nothing => Ok(0),
        Due::Alone(head) => send_head(room, own, head),
        Due::WithId(head, id, revision) => send_id(room, own, head, id, revision),
        Due::WithProperties(head, data) => send_properties(room, own, head, data),
        Due::WithRecords(head, asked) => send_records(room, own, head, links, asked),
    }
}

fn send_head(room: &mut [u8], own: Address, head: Head) -> Result<usize, TooShort>
    ensures { Sending (head_of own head) room.old result room.new }
{
    if room.len() < 9 {
        return Err(TooShort);
    }
    basis::lay(room, &head.message(own));
    Ok(9)
}

fn send_id(
    room: &mut [u8],
    own: Address,
    head: Head,
    id: Address,
    revision: u8,
) -> Result<usize, TooShort>
    ensures { Sending (head_of own head ++ standard own id ReplyType.IdBroadcast head.hops 0x01 revision)
        room.old result room.new }
{
    if room.len() < 18 {
        return Err(TooShort);
    }
    let broadcast = Head {
        reply_type: ReplyType::IdBroadcast,
        to: id,
        command1: 0x01,
        command2: revision,
        ..head
    };
    basis::lay(room, &head.message(own));
    basis::lay(&mut room[9..], &broadcast.message(own));
    Ok(18)
}

fn send_properties(
    room: &mut [u8],
    own: Address,
    head: Head,
    data: [u8; 14],
) -> Result<usize, TooShort>
    ensures { Sending (head_of own head ++ extended own head.to head.hops 0x2e (data_bytes «data»)) room.old result room.new }
{
    if room.len() < 32 {
        return Err(TooShort);
    }
    let properties = head.of_data(0x2e).message(own);
    basis::lay(room, &head.message(own));
    put_extended(&mut room[9..], &properties, &data);
    Ok(32)
}

fn send_records(
    room: &mut [u8],
    own: Address,
    head: Head,
    links: &[u8],
    asked: Asked,
) -> Result<usize, TooShort>
    ensures { Sending (head_of own head ++ sent_records own head.to head.hops asked.data1 links.now asked.first asked.most)
        room.old result room.new }
{
    let n = asked.count(links);
    // So many would be too long; for fewer the length is a number that the machine has.
    if room.len() / 16 < n {
        return Err(TooShort);
    }
    let length = 9 + 23 * n;
    if room.len() < length {
        return Err(TooShort);
    }
    basis::lay(room, &head.message(own));
    put_records(&mut room[9..], own, head, links, asked, n);
    Ok(length)
}
