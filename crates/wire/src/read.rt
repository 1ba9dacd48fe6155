// A message of any length, read once.
ghost use Rattle.std.specs.Prelude.{◌≡◌, true, false, take, MatchOption};
ghost use Rattle.wire.specs.Bytes.{from_of, to_of, named_in, request_of, is_extended, is_whole, data_of};
ghost use Rattle.wire.specs.Kinds.{is_unheard, is_astray, is_foreign, kind_of, heard_as, command_of};
ghost use Rattle.wire.specs.Checksum.{is_sum_wrong};
ghost use Rattle.wire.specs.Reading.{bare, read_of, heard_in, ReadPromise};

use crate::address::Address;
use crate::command::{Command, Extended, GroupCommand, Standard};
use crate::kind::{Message, MessageKind, Unread};
use crate::request::Request;
use crate::sum;

// A message that reached the module whose address is `own`.
#[tactic(auto, using(crate::proofs::Numbered::promised))]
pub fn read(message: &[u8], own: Address) -> Message
    ensures { ReadPromise message.now own result }
{
    let to = named_in(message);
    read_as(message, to, own)
}

// The same for whomever it names: what every seat of a class is offered.
pub fn hear(message: &[u8]) -> Message
    ensures { result ≡ heard_in message.now }
{
    let to = named_in(message);
    read_as(message, to, to)
}

// In the order of "Result numbers": 1, 3, 4, then its kind.
#[tactic(auto, using(crate::proofs::Head::same_foreign, crate::proofs::Head::same_kind), unfolding(crate::specs::Reading::read_of, basis::specs::Choice::choose))]
fn read_as(message: &[u8], to: Address, own: Address) -> Message
    requires { to ≡ named_in message.now }
    ensures { result ≡ read_of message.now own }
{
    let Some(head) = whole_head(message) else {
        return bare(to, Err(Unread::BadLength));
    };
    if is_foreign(head, own) {
        return bare(to, Ok(MessageKind::Foreign));
    }
    if is_sum_wrong(message) {
        return bare(to, Err(Unread::BadSum));
    }
    let kind = kind_of(head);
    let data = data_of(message);
    Message {
        to,
        reading: Ok(kind),
        data,
    }
}

// What a message is, whoever it is for and whatever its sum; foreign where it is of no kind that we hear, or too short to tell.
pub fn heard_as(message: &[u8]) -> MessageKind
    ensures { result ≡ heard_as message.now }
{
    match message.first_chunk::<9>() {
        Some(head) if !is_unheard(head) => kind_of(head),
        _ => MessageKind::Foreign,
    }
}

// A reading with no data bytes beside it.
fn bare(to: Address, reading: Result<MessageKind, Unread>) -> Message
    ensures { result ≡ bare to reading }
{
    Message {
        to,
        reading,
        data: [0; 14],
    }
}

// The nine bytes that every message has, of one to which result 1 does not apply.
fn whole_head(message: &[u8]) -> Option<&[u8; 9]>
    ensures { MatchOption result (is_whole message.now ≡ false) (λ head. (is_whole message.now ≡ true) × (head.now ≡ take 9 message.now)) }
{
    if is_whole(message) {
        return message.first_chunk();
    }
    None
}

// Result 1 does not apply.
#[tactic(auto, unfolding(basis::specs::Choice::choose))]
fn is_whole(message: &[u8]) -> bool
    ensures { result ≡ is_whole message.now }
{
    match message.len() {
        9 => !is_extended(message),
        23 => is_extended(message),
        _ => false,
    }
}

// Flags bit 4 is set; a message too short for flags is not extended.
pub fn is_extended(message: &[u8]) -> bool
    ensures { result ≡ is_extended message.now }
{
    message.get(6).is_some_and(|flags| flags / 16 % 2 == 1)
}

// Result 3.
fn is_foreign(head: &[u8; 9], own: Address) -> bool
    ensures { result ≡ is_foreign head.now own }
{
    is_unheard(head) | is_astray(head, own)
}

// Of no kind that we hear: another type, or extended and not direct.
fn is_unheard(head: &[u8; 9]) -> bool
    ensures { result ≡ is_unheard head.now }
{
    let kind = head[6] / 32;
    let direct = kind == 0;
    let cleanup = kind == 2;
    let broadcast = kind == 6;
    !(direct | cleanup | broadcast) | (is_extended(head) & !direct)
}

// Not addressed to us.
fn is_astray(head: &[u8; 9], own: Address) -> bool
    ensures { result ≡ is_astray head.now own }
{
    let kind = head[6] / 32;
    let direct = kind == 0;
    let cleanup = kind == 2;
    (direct | cleanup) & (to_of(head) != own)
}

// Result 4.
#[tactic(auto, using(crate::proofs::Whole::by_length))]
fn is_sum_wrong(message: &[u8]) -> bool
    requires { is_whole message.now ≡ true }
    ensures { result ≡ is_sum_wrong message.now }
{
    if message.len() != 23 {
        return false;
    }
    if sum::is_exempt(message) {
        return false;
    }
    !sum::is_sum_right(message)
}

// The kind of a message that is not foreign.
#[tactic(auto, unfolding(crate::specs::Kinds::kind_of, basis::specs::Choice::choose))]
fn kind_of(head: &[u8; 9]) -> MessageKind
    ensures { result ≡ kind_of head.now }
{
    let request = request_of(head);
    let command1 = request.command1;
    match head[6] / 32 {
        0 => MessageKind::Direct(request, command_of(is_extended(head), command1)),
        2 => MessageKind::Cleanup(request, GroupCommand::from(command1)),
        _ => MessageKind::Broadcast(from_of(head), to_of(head), GroupCommand::from(command1)),
    }
}

fn request_of(head: &[u8; 9]) -> Request
    ensures { result ≡ request_of head.now }
{
    Request {
        from: from_of(head),
        hops: head[6] % 4,
        command1: head[7],
        command2: head[8],
    }
}

// A direct command, by its length and Command 1.
#[tactic(auto, unfolding(basis::specs::Choice::choose))]
fn command_of(is_long: bool, command1: u8) -> Command
    ensures { result ≡ command_of is_long command1 }
{
    if is_long {
        Command::Extended(Extended::from(command1))
    } else {
        Command::Standard(Standard::from(command1))
    }
}

// Data 1 to Data 14.
fn data_of(message: &[u8]) -> [u8; 14]
    requires { is_whole message.now ≡ true }
    ensures { result ≡ data_of message.now }
{
    match message.last_chunk() {
        Some(data) => *data,
        None => [0; 14],
    }
}

// Whom a message is for.
#[tactic(auto, using(crate::proofs::Head::same_to, crate::proofs::Head::nobody), unfolding(basis::specs::Choice::choose))]
fn named_in(message: &[u8]) -> Address
    ensures { result ≡ named_in message.now }
{
    message.first_chunk().map(to_of).unwrap_or_default()
}

fn from_of(head: &[u8; 9]) -> Address
    ensures { result ≡ from_of head.now }
{
    let [high, middle, low, ..] = *head;
    Address { high, middle, low }
}

fn to_of(head: &[u8; 9]) -> Address
    ensures { result ≡ to_of head.now }
{
    let [_, _, _, high, middle, low, ..] = *head;
    Address { high, middle, low }
}
