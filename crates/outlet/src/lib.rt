// The outlet: its two sockets, and what its own commands and its groups do to them, decided by value (request 1).
#![tactic(auto)]

pub mod groups; // what a group's record does
mod commands; // commands to the sockets
mod properties; // extended 2E
pub mod table; // the rows that are its own
