// A message to the class.
ghost use Rattle.std.specs.Prelude.{length};
ghost use Rattle.class.specs.Turns.{turn_of, Ready, Took};
ghost use Rattle.class.specs.Class.{class_of, ClassComes};

use crate::turn::turn;
use module::state::Module;
use row::open::open;
use row::progress::{ClassAnswer, Progress};
use wire::kind::Message;
use wire::read::hear;

// The one place that holds the row. Whose turn it is and what it does is decided by value; here an element is lent.
pub fn class_step(
    row: &mut [Module],
    links: &mut [u8],
    message: &[u8],
    room: &mut [u8],
) -> ClassAnswer
    ensures { ClassComes (class_of row.old links.old message.now room.old)
        result row.new links.new room.new }
{
    let heard = hear(message);
    let mut t = open(row.len(), links.len(), heard);
    // Stays a `while`: each turn says whose turn is next, and a row may be walked twice, so that no `for` goes along it. Under a `while let` on
    // `get_mut` the proof does not close, since the check learns nothing of the row behind such a loan.
    while t.seat < row.len() {
        t = tend(&mut row[t.seat], t, heard, links, room);
    }
    t.answer
}

// The one place that alters a module where it stands.
pub(crate) fn tend(
    m: &mut Module,
    t: Progress,
    heard: Message,
    links: &mut [u8],
    room: &mut [u8],
) -> Progress
    requires { Ready t (length links.old) }
    ensures { Took (turn_of m.old t heard links.old room.old)
        result m.new links.new room.new }
{
    let a = turn(*m, t, heard, links, room);
    *m = a.next;
    a.progress
}
