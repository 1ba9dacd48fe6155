// What every kind of module does alike ("Direct commands").
#![tactic(auto)]

mod database; // extended 2F
mod extended; // direct commands, extended
mod flags; // the flag rule
pub mod properties; // extended 2E
mod standard; // direct commands, standard
pub mod table; // the rows that all kinds share
