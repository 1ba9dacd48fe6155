// The dimmer: its lamp, and what its own commands and its groups do to it, decided by value ("Direct commands", "Groups").
#![tactic(auto)]

pub mod groups; // what a group's record does
mod levels; // levels and per cent
mod commands; // commands to the lamp
mod properties; // extended 2E
pub mod table; // the rows that are its own
