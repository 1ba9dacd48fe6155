// What a message changes in the module: the one list of it. Who a module is stands in none of its cases.
ghost use Rattle.std.specs.Prelude.{◌≡◌};
ghost use Rattle.module.specs.Change.{apply};

use crate::state::Module;
use load::state::Load;

#[derive(Clone, Copy)]
pub enum Change {
    // No Option of the others: `apply` and the theorem `fate` go by the whole list.
    Nothing,
    Flags(u8),
    Led(u8),
    // House and unit.
    X10(u8, u8),
    // A load of the module's own kind.
    Load(Load),
    // By 1, FF to 00: link memory was written.
    NextDelta,
}

impl Module {
    // The module afterwards.
    pub fn apply(self, change: Change) -> Module
        ensures { result ≡ apply change self }
    {
        match change {
            Change::Nothing => self,
            Change::Flags(flags) => Module { flags, ..self },
            Change::Led(led) => Module { led, ..self },
            Change::X10(house, unit) => Module {
                house,
                unit,
                ..self
            },
            Change::Load(load) => Module { load, ..self },
            Change::NextDelta => Module {
                delta: self.delta.wrapping_add(1),
                ..self
            },
        }
    }
}
