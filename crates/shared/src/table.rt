// The rows that all kinds share; a kind's own table comes before it.
ghost use Rattle.std.specs.Prelude.{◌≡◌};
ghost use Rattle.shared.specs.Table.{shared_deed};

use crate::extended::extended_deed;
use crate::standard::standard_deed;
use module::deed::Deed;
use module::state::Module;
use wire::command::Command;
use wire::request::Request;

// With the data bytes beside the command, and `records` records in link memory.
// Five parameters and no struct: each function below takes those alone that it looks at, so its signature says what its deed
// can depend on; a struct would give all five to each.
pub fn shared_deed(m: Module, r: Request, data: [u8; 14], records: usize, command: Command) -> Deed
    ensures { result ≡ shared_deed m r «data» records command }
{
    match command {
        Command::Standard(s) => standard_deed(m, r, s),
        Command::Extended(e) => extended_deed(m, r, data, records, e),
    }
}
