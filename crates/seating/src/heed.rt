// One message to whoever sits there.
ghost use Rattle.seating.specs.Heed.{heed_of, alone_of, class_heed, Heeds};

use class::seats::class_seats;
use device::step::step;
use module::state::Module;
use row::progress::Whom;

#[derive(Clone, Copy)]
pub enum Seating {
    Alone(Module),
    // The first `count` places are the class's. An array with its count, as a count over sixteen is a row too, which is refused.
    Class { row: [Module; 16], count: usize },
}

// The paper's number, the reply's length, the records read, whom it was for, and who sits there afterwards. A module alone is the first
// seat. A number and no outcome: `Heeds` and the theorems over it speak of the paper's numbers, for a module and a class alike; and so of
// the reply's length, which is no slice of the room that is lent.
#[derive(Clone, Copy)]
pub struct Heeded {
    pub number: u8,
    pub length: usize,
    pub read: usize,
    pub whom: Whom,
    pub next: Seating,
}

#[tactic(auto, unfolding(crate::specs::Heed::heed_of))]
pub fn heed(s: Seating, links: &mut [u8], message: &[u8], room: &mut [u8]) -> Heeded
    ensures { Heeds (heed_of s links.old message.now room.old)
        s result links.new room.new }
{
    match s {
        Seating::Alone(m) => heed_alone(m, links, message, room),
        Seating::Class { row, count } => heed_class(row, count, links, message, room),
    }
}

fn heed_alone(m: Module, links: &mut [u8], message: &[u8], room: &mut [u8]) -> Heeded
    ensures { Heeds (alone_of m links.old message.now room.old)
        (Seating.Alone m) result links.new room.new }
{
    let a = step(m, links, message, room);
    Heeded {
        number: u8::from(a.outcome),
        length: a.length,
        read: a.read,
        whom: Whom::Seat(0),
        next: Seating::Alone(a.next),
    }
}

fn heed_class(
    row: [Module; 16],
    count: usize,
    links: &mut [u8],
    message: &[u8],
    room: &mut [u8],
) -> Heeded
    ensures { Heeds (class_heed row count links.old message.now room.old)
        (Seating.Class row count) result links.new room.new }
{
    let served = class_seats(row, count, links, message, room);
    let after = served.seats;
    let answer = served.answer;
    Heeded {
        number: u8::from(answer.outcome),
        length: answer.length,
        read: answer.read,
        whom: answer.whom,
        next: Seating::Class { row: after, count },
    }
}
