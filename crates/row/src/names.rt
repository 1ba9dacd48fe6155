// The addresses of the seats.
ghost use Rattle.std.specs.Prelude.{◌≡◌, length, position};
ghost use Rattle.wire.specs.Bytes.{equals};
ghost use Rattle.row.specs.Row.{is_doubled};
ghost use Rattle.row.specs.Round.{name_in};

use wire::address::Address;

// The first seat with that address.
pub(crate) fn seat_named(names: &[Address], a: Address) -> Option<usize>
    ensures { result ≡ position (λ b. equals a b) names.now }
{
    names.iter().position(|b| is_same(a, *b))
}

// The low byte is asked first: it tells most addresses apart, and `==` alone begins with the high one. With that a message to the last of
// sixteen seats takes a hundred instructions more, which is more than the form before took.
fn is_same(a: Address, b: Address) -> bool
    ensures { result ≡ equals a b }
{
    if a.low != b.low {
        return false;
    }
    a == b
}

// Two of the seats have one address: result 9. Addresses are compared only where their low byte was met before.
pub(crate) fn is_doubled(names: &[Address]) -> bool
    ensures { result ≡ is_doubled (name_in names.now) (length names.now) }
{
    let mut met = [false; 256];
    for (i, a) in names.iter().enumerate() {
        let low = usize::from(a.low);
        if met[low] && seat_named(&names[..i], *a).is_some() {
            return true;
        }
        met[low] = true;
    }
    false
}
