// Names of records on the wire: what an address means stands here alone ("Link memory").
ghost use Rattle.std.specs.Prelude.{◌≡◌};
ghost use Rattle.links.specs.Name.{name_of, meant, place_of};

// The address that record `k` is shown by, or 0 where there is none: no Option, as the clause says a number, the two bytes that are sent.
pub fn name_of(k: usize) -> usize
    ensures { result ≡ name_of k }
{
    if 511 < k { 0 } else { 0x0fff - 8 * k }
}

// The record that an address names in a link memory of so many records; any other address is illegal.
pub fn place_of(records: usize, address: usize) -> Option<usize>
    ensures { result ≡ place_of records address }
{
    let name = meant(address);
    if 0x0fff < name {
        return None;
    }
    let below = 0x0fff - name;
    if below % 8 != 0 {
        return None;
    }
    let k = below / 8;
    if k < records { Some(k) } else { None }
}

// Hub software asks from 0000 and means the first record (request 3).
#[tactic(auto, unfolding(crate::specs::Name::meant, basis::specs::Choice::choose))]
fn meant(address: usize) -> usize
    ensures { result ≡ meant address }
{
    if address == 0x0000 { 0x0fff } else { address }
}
