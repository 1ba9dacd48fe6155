// The modem's frames ("The program"): found in what has arrived, answered, and laid out.
#![tactic(auto)]

pub mod arrived;
pub mod frames;
pub mod serve;
