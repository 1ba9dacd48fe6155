// Who sits there, as words say it: a kind of module, and the row of a class, a module a line (document 02, "One bench for a class").
#![tactic(auto)]

pub mod word; // the words that name a kind
pub mod seat; // a fresh module of a kind
mod words; // the words of a line
mod bytes; // words that are bytes
pub mod line; // a line of a row, and the module that it names
pub mod roster; // line after line
