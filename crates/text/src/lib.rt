// The lines of the instructor's screen: plain values and bytes in, text out.
#![tactic(auto)]

pub mod line; // what came of a frame
pub mod tally; // how many frames there were
