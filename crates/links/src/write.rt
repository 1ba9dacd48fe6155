// Bytes over the first ones of a record ("Direct commands, extended").
ghost use Rattle.std.specs.Prelude.{◌≡◌};
ghost use Rattle.links.specs.Write.{written_if_there};

use crate::memory::{records, start_of};

// Where there is no record `k`, or there are more than eight bytes, nothing is written.
#[tactic(auto, using(basis::proofs::Laid::inner), unfolding(crate::specs::Write::written_if_there, basis::specs::Choice::choose))]
pub fn write(links: &mut [u8], k: usize, bytes: &[u8])
    ensures { links.new ≡ written_if_there links.old k bytes.now }
{
    if records(links) <= k {
        return;
    }
    if 8 < bytes.len() {
        return;
    }
    let at = start_of(links, k);
    basis::lay(&mut links[at..], bytes);
}
