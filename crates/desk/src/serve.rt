// Every whole frame that arrives is served at once; what is left of a frame waits for more.
ghost use Rattle.std.specs.Prelude.{◌≡◌, ◌<◌, ◌≤◌, length};
ghost use Rattle.desk.specs.Desk.{closed_of};
ghost use Rattle.desk.specs.Ahead.{seek_behind};
ghost use Rattle.desk.specs.Passed.{ArrivedPromise, HeldPromise, ReadPromise, EndPromise};

use crate::answer::{Desk, Lent, answer, closed};
use crate::input::read_behind;
use crate::said::say_failed;
use modem::arrived::{Seen, keep, seek};

// How far a desk has come, in bytes of what is held: a count, as `ReadPromise` and `HeldPromise` name it.
#[derive(Clone, Copy)]
struct Progress {
    desk: Desk,
    count: usize,
}

impl<const ROOM: usize> Lent<'_, ROOM> {
    #[tactic(auto, using(crate::proofs::Held::at_first, crate::proofs::Held::go_on_lem))]
    pub(crate) fn serve_until_end(&mut self, desk: Desk, held: &mut [u8])
        requires { 25 ≤ length held.old }
        ensures { EndPromise desk self.old.links.now self.old.room.now self.new.links.now }
    {
        let mut p = Progress { desk, count: 0 };
        // A proved loop has to end, and input need not: it has more turns than any run uses up.
        for _ in 0..u64::MAX {
            if !p.desk.is_open {
                return;
            }
            p = self.serve_one_read(p, held);
        }
    }

    // One read, and all that follows from it; how many bytes are held then. At the end they are dropped: nobody serves them.
    #[tactic(auto, using(crate::proofs::Held::read_on, crate::proofs::Held::no_read))]
    fn serve_one_read(&mut self, before: Progress, held: &mut [u8]) -> Progress
        requires { before.count < length held.old }
        ensures { ReadPromise before self.old.links.now self.old.room.now held.old
            result self.new.links.now held.new }
    {
        match read_behind(&mut self.rt.stdin(), held, before.count) {
            Ok(Some(k)) => self.serve_held(before.desk, &mut held[..k]),
            Ok(None) => {
                self.finish(before.desk);
                stopped(before)
            }
            Err(error) => {
                say_failed(self.rt, "standard input", error);
                stopped(before)
            }
        }
    }

    // Every whole frame of what is held is served, and the rest is moved to the start; how many bytes that is.
    #[tactic(auto, using(crate::proofs::Held::moved))]
    fn serve_held(&mut self, desk: Desk, held: &mut [u8]) -> Progress
        ensures { HeldPromise desk self.old.links.now self.old.room.now held.old
            result self.new.links.now held.new }
    {
        let p = self.serve_arrived(desk, held);
        keep(held, p.count);
        Progress {
            desk: p.desk,
            count: held.len() - p.count,
        }
    }

    // Every whole frame of what has arrived; how many bytes are done with.
    #[tactic(auto, using(crate::proofs::Ahead::lies, crate::proofs::Passed::still))]
    fn serve_arrived(&mut self, desk: Desk, arrived: &[u8]) -> Progress
        ensures { ArrivedPromise desk self.old.links.now self.old.room.now arrived.now
            result self.new.links.now }
    {
        let mut desk = desk;
        let mut used: usize = 0;
        // no `for`: it goes from frame to frame, and ends where no whole one is left or the desk is closed
        while desk.is_open {
            match seek_from(arrived, used) {
                Seen::Waiting(k) => return Progress { desk, count: k },
                Seen::Whole(k, n) => {
                    let end = k + n;
                    let frame = &arrived[k..end];
                    let left = answer(
                        self.rt,
                        self.show,
                        desk.seating,
                        &mut desk.tally,
                        self.links,
                        frame,
                        self.room,
                        self.out,
                    );
                    desk.seating = left.seating;
                    desk.is_open = left.is_open;
                    used = end;
                }
            }
        }
        Progress { desk, count: used }
    }
}

// No more is read.
fn stopped(before: Progress) -> Progress
    ensures { result ≡ record { desk = closed_of before.desk; count = before.count } }
{
    Progress {
        desk: closed(before.desk),
        count: before.count,
    }
}

// The next frame behind the first `used` bytes; its place is counted from the start of all.
#[tactic(auto, using(modem::proofs::Placed::found, modem::proofs::Placed::waits))]
fn seek_from(arrived: &[u8], used: usize) -> Seen
    requires { used ≤ length arrived.now }
    ensures { result ≡ seek_behind used arrived.now }
{
    match seek(&arrived[used..]) {
        Seen::Whole(k, n) => Seen::Whole(used + k, n),
        Seen::Waiting(k) => Seen::Waiting(used + k),
    }
}
