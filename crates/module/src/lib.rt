// What a module is, whatever its kind: its values, what can change in them, and what is decided for a message ("The module we simulate").
#![tactic(auto)]

pub mod change; // what a message changes, and the module after it
pub mod deed; // what a direct command that is looked at comes to
pub mod plan; // what is decided, before anything is written
pub mod state; // the module, its identity and its start
