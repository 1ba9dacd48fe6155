// The flag rule, for eight flags ("Direct commands, extended").
ghost use Rattle.std.specs.Prelude.{◌≡◌, ◌<◌};
ghost use Rattle.basis.specs.Flags.{flagged};

// Even codes set a flag, and odd ones clear it.
pub(crate) fn flagged(code: u8, flags: u8) -> u8
    requires { code < 16 }
    ensures { result ≡ flagged code flags }
{
    let flag: u8 = 1 << (code / 2);
    if code % 2 == 0 {
        flags | flag
    } else {
        flags & !flag
    }
}
