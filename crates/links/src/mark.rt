// Records up to an end mark ("Link memory").
ghost use Rattle.std.specs.Prelude.{◌≡◌, ◌-◌, ◌≤◌, min};
ghost use Rattle.links.specs.Record.{records};
ghost use Rattle.links.specs.Mark.{up_to_mark};

use crate::memory::{is_end_mark, record_at, records};

// Of the `n` records from record `k` on, as far as they are there, those before the first end mark, and the end mark.
#[tactic(auto, unfolding(crate::specs::Mark::up_to_mark))]
pub fn up_to_mark(links: &[u8], k: usize, n: usize) -> usize
    ensures { result ≡ up_to_mark links.now (min n (records links.now - k)) k }
{
    let left = records(links).saturating_sub(k);
    count_to_mark(links, k, n.min(left))
}

// The same of records that are there.
fn count_to_mark(links: &[u8], k: usize, n: usize) -> usize
    requires { n ≤ records links.now - k }
    ensures { result ≡ up_to_mark links.now n k }
{
    for i in 0..n {
        let record = record_at(links, k + i);
        if is_end_mark(record) {
            return i + 1;
        }
    }
    n
}
