// Who sits there at first.
ghost use Rattle.std.specs.Prelude.{◌≡◌};
ghost use Rattle.seating.specs.Start.{alone_with, class_with};

use crate::heed::Seating;
use module::state::Module;

pub fn alone(m: Module) -> Seating
    ensures { result ≡ alone_with m }
{
    Seating::Alone(m)
}

pub fn class_with(row: [Module; 16], count: usize) -> Seating
    ensures { result ≡ class_with row count }
{
    Seating::Class { row, count }
}
