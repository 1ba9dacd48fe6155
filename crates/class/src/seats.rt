// For whoever has the row by value, in the first places of an array: its promise says nothing of a lent row. The count stands beside the
// array, as one over sixteen is refused with its result.
ghost use Rattle.std.specs.Prelude.{◌≤◌};
ghost use Rattle.class.specs.Seats.{seats_of, SeatsCome, first_of};

use crate::step::class_step;
use module::state::Module;
use row::outcome::ClassOutcome;
use row::progress::{ClassAnswer, silent};

#[derive(Clone, Copy)]
pub struct SeatsAnswer {
    pub answer: ClassAnswer,
    pub seats: [Module; 16],
}

// A row of n modules; over sixteen it is refused as any such row is.
pub fn class_seats(
    seats: [Module; 16],
    n: usize,
    links: &mut [u8],
    message: &[u8],
    room: &mut [u8],
) -> SeatsAnswer
    ensures { SeatsCome (seats_of seats n links.old message.now room.old)
        result links.new room.new }
{
    if 16 < n {
        return SeatsAnswer {
            answer: silent(ClassOutcome::Unfit),
            seats,
        };
    }
    lend_seats(seats, n, links, message, room)
}

// The places behind the row are not lent.
fn lend_seats(
    seats: [Module; 16],
    n: usize,
    links: &mut [u8],
    message: &[u8],
    room: &mut [u8],
) -> SeatsAnswer
    requires { n ≤ 16 }
    ensures { SeatsCome (first_of seats n links.old message.now room.old)
        result links.new room.new }
{
    let mut row = seats;
    let answer = class_step(&mut row[..n], links, message, room);
    SeatsAnswer { answer, seats: row }
}
