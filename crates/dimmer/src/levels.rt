// Levels, and per cent of them ("Direct commands, standard").
ghost use Rattle.std.specs.Prelude.{◌≡◌, ◌≤◌};
ghost use Rattle.dimmer.specs.Load.{raised, lowered, high_then_f, percent_of, level_of};

// Eight more, at most FF.
pub(crate) fn raised(level: u8) -> u8
    ensures { result ≡ raised level }
{
    level.saturating_add(8)
}

// Eight less, at least 00.
pub(crate) fn lowered(level: u8) -> u8
    ensures { result ≡ lowered level }
{
    level.saturating_sub(8)
}

// The high digit followed by the digit F.
pub(crate) fn high_then_f(two: u8) -> u8
    ensures { result ≡ high_then_f two }
{
    two / 16 * 16 + 15
}

// Of at most 25,627, so that the quotient is a byte; `try_from` would have an error that cannot arise, here and below.
pub(crate) fn percent_of(level: u8) -> u8
    ensures { result ≡ percent_of level }
{
    ((100 * u32::from(level) + 127) / 255) as u8
}

pub(crate) fn level_of(p: u8) -> u8
    requires { p ≤ 100 }
    ensures { result ≡ level_of p }
{
    ((255 * u32::from(p) + 50) / 100) as u8
}
