// One frame: answered, told, and counted.
ghost use Rattle.std.specs.Prelude.{◌≡◌, ◌*◌, ◌<◌, length, true};
ghost use Rattle.io.specs.Counts.{IsPrefixLen};
ghost use Rattle.modem.specs.Frames.{framed};
ghost use Rattle.desk.specs.Tally.{counted_at, counted_as};
ghost use Rattle.desk.specs.Desk.{fresh_desk, closed_of, open_with, left_with, AnswerPromise, Handed};

use crate::Show;
use crate::said::say_failed;
use letters::put_text;
use lines::counts::Counts;
use lines::told::Told;
use modem::serve::{Served, serve};
use row::progress::Whom;
use seating::heed::{Heeded, Seating};
use std::fmt::Display;
use std::io::Error;
use text::tally::Tally;

// Who sits there, how many frames had each result and were for each seat, and whether more frames are served. A flag and no Option: the
// promises (`EndPromise`, `ReadPromise`, `HeldPromise`) say of a closed desk, too, who sits there and what was counted.
#[derive(Clone, Copy)]
pub(crate) struct Desk {
    pub seating: Seating,
    pub tally: Tally,
    pub is_open: bool,
}

// Nothing has been served yet.
pub(crate) fn fresh(seating: Seating) -> Desk
    ensures { result ≡ fresh_desk seating }
{
    Desk {
        seating,
        tally: Tally {
            results: [0; 12],
            seats: [0; 16],
            every: 0,
            nobody: 0,
        },
        is_open: true,
    }
}

pub(crate) fn closed(desk: Desk) -> Desk
    ensures { result ≡ closed_of desk }
{
    Desk {
        is_open: false,
        ..desk
    }
}

// What a desk is lent for as long as it serves. More than twice the room holds the frames of any reply.
#[derive(Drop)]
pub(crate) struct Lent<'a, const ROOM: usize> {
    pub rt: HostRuntime,
    pub show: Show,
    pub links: &'a mut [u8],
    // for one reply
    pub room: &'a mut [u8],
    // for its frames, or for its line
    pub out: &'a mut [u8],
    ghost room_size: { length room.now ≡ ROOM },
    ghost fits: { 2 * ROOM < length out.now },
}

impl<const ROOM: usize> Lent<'_, ROOM> {
    pub(crate) fn finish(&mut self, desk: Desk)
        ensures { self.new.links.now ≡ self.old.links.now }
    {
        match self.show {
            Show::Frames => {}
            Show::Lines => {
                let counts = Counts {
                    seating: &desk.seating,
                    tally: &desk.tally,
                };
                if let Err(error) = write_text(self.rt, counts, self.out) {
                    say_untold(self.rt, error);
                }
            }
        }
    }
}

// Who sits there after a frame, and whether more are served.
#[derive(Clone, Copy)]
pub(crate) struct Left {
    pub seating: Seating,
    pub is_open: bool,
}

// Closed afterwards where the reply might not fit, or could not be told. No method of `Lent`: what `AnswerPromise` says of an `out` in
// which it might not fit (`cramped`) could not be said of one that `fits`. The counts are lent apart from the seats, and counted where they
// stand: in a desk by value they would be copied twice for each frame.
pub(crate) fn answer(
    rt: HostRuntime,
    show: Show,
    seating: Seating,
    tally: &mut Tally,
    links: &mut [u8],
    frame: &[u8],
    room: &mut [u8],
    out: &mut [u8],
) -> Left
    ensures { AnswerPromise (open_with seating tally.old) links.old frame.now room.old out.old
        (left_with result tally.new) links.new }
{
    let Some(served) = serve(seating, links, frame, room, out) else {
        return Left {
            seating,
            is_open: false,
        };
    };
    count_as(tally, served.heeded.number, served.heeded.whom);
    let is_open = match tell(rt, show, frame, served, room, out) {
        Ok(()) => true,
        Err(error) => {
            say_untold(rt, error);
            false
        }
    };
    Left {
        seating: served.heeded.next,
        is_open,
    }
}

fn count_as(tally: &mut Tally, number: u8, whom: Whom)
    ensures { tally.new ≡ counted_as tally.old number whom }
{
    count_at(&mut tally.results, usize::from(number));
    match whom {
        Whom::Seat(i) => count_at(&mut tally.seats, i),
        Whom::All => tally.every = tally.every.wrapping_add(1),
        Whom::Nobody => tally.nobody = tally.nobody.wrapping_add(1),
    }
}

// A count that is full begins anew.
fn count_at(counts: &mut [u64], i: usize)
    ensures { counts.new ≡ counted_at counts.old i }
{
    if i < counts.len() {
        counts[i] = counts[i].wrapping_add(1);
    }
}

// No method of `Lent` either: the check's borrow rules do not cover two of its slices that are cut at once.
fn tell(
    rt: HostRuntime,
    show: Show,
    frame: &[u8],
    served: Served,
    room: &[u8],
    out: &mut [u8],
) -> Result<(), Error>
    requires prefix_len { IsPrefixLen served.sent out.old }
    requires prefix_len_2 { IsPrefixLen served.heeded.length room.now }
    requires handed { Handed frame.now served.heeded served.sent room.now out.old }
{
    let reply = &room[..served.heeded.length];
    match show {
        Show::Frames => send(rt, &out[..served.sent], reply),
        Show::Lines => {
            let told = Told {
                frame,
                heeded: &served.heeded,
                reply,
            };
            write_text(rt, told, out)
        }
    }
}

// The frames of a reply, and nothing else. The reply stands beside them so that it can be said which.
fn send(rt: HostRuntime, frames: &[u8], reply: &[u8]) -> Result<(), Error>
    requires { frames.now ≡ framed reply.now }
{
    write_out(rt, frames)
}

// In one write. A line refuses no text: what no longer fits is left out.
fn write_text<T: Display + Drop>(rt: HostRuntime, text: T, out: &mut [u8]) -> Result<(), Error> {
    let n = put_text(out, 0, text);
    write_out(rt, &out[..n])
}

fn write_out(rt: HostRuntime, bytes: &[u8]) -> Result<(), Error> {
    rt.stdout().write_all(bytes)
}

// A reply or a line that could not be written: said on standard error, once, where it was to be told.
fn say_untold(rt: HostRuntime, error: Error) {
    say_failed(rt, "standard output", error);
}
