// What is decided of a message, by value: whom the module looks for, and what comes of what was found ("Result numbers", "Groups").
#![tactic(auto)]

mod dispatch; // by the module's load
mod groups; // broadcasts and cleanups
mod plan; // by the kind of message
pub mod rule; // refusals and plans in the paper's order
