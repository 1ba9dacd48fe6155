// A row of modules by its addresses and its measure: what a message to it is refused for, and whom it is for (document 02, "One bench for a class").
#![tactic(auto)]

pub mod outcome; // what a message to the class comes to, and its number
pub mod progress; // where the row stands with a message
pub mod open; // before the first turn: the row's measure, and whom a message is for as its reading tells
mod names; // the addresses of the seats
pub mod settle; // after the first round: who is to be served
