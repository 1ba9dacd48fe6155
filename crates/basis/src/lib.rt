// What every layer is written with. Its definitions stand in specs/ and their laws in proofs/; it lays bytes, and has the lesser of two numbers.
#![tactic(auto)]

ghost use Rattle.std.specs.Prelude.{◌≡◌, min};
ghost use Rattle.basis.specs.Laid.{laid_if_fits};

// The bytes over the start of the room; what stands behind them stays. Where they do not fit, nothing is written. A loop: with
// `copy_from_slice` the reply of a whole database takes half as many instructions again.
pub fn lay(room: &mut [u8], bytes: &[u8])
    ensures { room.new ≡ laid_if_fits room.old bytes.now }
{
    if room.len() < bytes.len() {
        return;
    }
    for (i, byte) in bytes.iter().enumerate() {
        room[i] = *byte;
    }
}

// std's, with a clause by the definition. It stays, as two edits are of it, and `modem` calls it.
pub fn min(a: usize, b: usize) -> usize
    ensures { result ≡ min a b }
{
    a.min(b)
}
