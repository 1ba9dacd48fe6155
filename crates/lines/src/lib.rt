// The lines of the instructor's screen for whoever sits there: a module alone, or the seats of a class.
#![tactic(auto)]

pub mod told; // what came of a frame
pub mod counts; // at the end, by result and by seat
