// The next frame in what has arrived, in pieces of any size ("The program").
ghost use Rattle.std.specs.Prelude.{◌≡◌, ◌≤◌, ◌<◌, length, drop};
ghost use Rattle.basis.specs.Laid.{laid};
ghost use Rattle.modem.specs.Arrived.{stops_at, frame_start, size_at, seek_of};

// Where a whole frame stands and how long it is; or where the bytes begin that are to be kept until more arrive.
// Stays an enum, and no Result: neither is a refusal, and in both what is said is a place.
#[derive(Clone, Copy)]
pub enum Seen {
    Whole(usize, usize),
    Waiting(usize),
}

#[tactic(auto, using(crate::proofs::Placed::inside, crate::proofs::Placed::whole, crate::proofs::Placed::cut))]
pub fn seek(s: &[u8]) -> Seen
    ensures { result ≡ seek_of s.now }
{
    let k = frame_start(s);
    let n = size_at(s, k);
    if n <= s.len() - k {
        return Seen::Whole(k, n);
    }
    Seen::Waiting(k)
}

// Every byte before it starts no frame.
#[tactic(auto, using(crate::proofs::Placed::place_steps), unfolding(crate::specs::Arrived::frame_start))]
fn frame_start(s: &[u8]) -> usize
    ensures { result ≡ frame_start s.now }
{
    for k in 0..s.len() {
        if stops_at(s, k) {
            return k;
        }
    }
    s.len()
}

// A frame starts here, or the byte that would tell has not arrived.
fn stops_at(s: &[u8], k: usize) -> bool
    requires { k < length s.now }
    ensures { result ≡ stops_at s.now k }
{
    // the byte first: most are no 02, and then nothing else is asked
    s[k] == 0x02 && matches!(&s[k + 1..], [] | [0x50 | 0x51, ..])
}

// A standard message has nine bytes and an extended one twenty-three; two stand before it.
#[tactic(auto, unfolding(basis::specs::Choice::choose))]
fn size_at(s: &[u8], k: usize) -> usize
    requires { k ≤ length s.now }
    ensures { result ≡ size_at s.now k }
{
    match s.get(k + 1) {
        Some(0x51) => 25,
        _ => 11,
    }
}

// The bytes from `from` on, moved to the start; those that stand behind them there stay.
pub fn keep(held: &mut [u8], from: usize)
    ensures { held.new ≡ laid (drop from held.old) held.old }
{
    if held.len() <= from {
        return;
    }
    held.copy_within(from.., 0);
}
