// Who sits at a desk: one module alone, or a class. What a message comes to there is the step of the one or of the other.
#![tactic(auto)]

pub mod heed;
pub mod start; // who sits there at first
