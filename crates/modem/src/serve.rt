// One whole frame to whoever sits there: frame in, seats and link memory on, frames out ("The program").
ghost use Rattle.modem.specs.Serve.{ServePromise};

use crate::frames::put_frames;
use basis::min;
use seating::heed::{Heeded, Seating, heed};

// What its message came to, and how many bytes of frames there are: a number, and no slice of what is lent, as `ServePromise` says it.
#[derive(Clone, Copy)]
pub struct Served {
    pub heeded: Heeded,
    pub sent: usize,
}

// None where the frames of a reply might not fit: nothing is altered.
#[tactic(auto, using(crate::proofs::Turned::turn_steps))]
pub fn serve(
    s: Seating,
    links: &mut [u8],
    frame: &[u8],
    room: &mut [u8],
    out: &mut [u8],
) -> Option<Served>
    ensures { ServePromise s links.old frame.now room.old out.old
        result links.new room.new out.new }
{
    if out.len() <= 2 * room.len() {
        return None;
    }
    let start = min(frame.len(), 2);
    let heeded = heed(s, links, &frame[start..], room);
    let n = heeded.length;
    let sent = put_frames(out, &room[..n]);
    Some(Served { heeded, sent })
}
