// One bench for a class: a lent row of modules, and one link memory in equal shares (document 02, "One bench for a class").
#![tactic(auto)]

pub mod turn; // a seat's turn: its address is noted, or it is served
pub mod step; // the one call: the row's turns, one after another
pub mod seats; // the same for a row by value
