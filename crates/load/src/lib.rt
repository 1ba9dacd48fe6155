// What hangs on a module, by its kind, and the border of a kind: what its own table can say of a command.
#![tactic(auto)]

pub mod entry; // what a table has for a command
pub mod state; // the loads, and what they start with
pub mod table; // a kind's own rows among those of every kind
