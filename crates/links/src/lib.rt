// Link memory ("Link memory").
#![tactic(auto)]

pub mod mark; // records up to an end mark
pub mod memory; // fit or not, and records of eight bytes
pub mod name; // names of records on the wire
pub mod search; // who is linked
pub mod write; // bytes over a record
