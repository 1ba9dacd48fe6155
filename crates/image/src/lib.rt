// What a caller of another language keeps: a module as bytes, and a report; dreelish.h says what it is lent.
#![tactic(auto)]

pub mod held; // from bytes to a module
pub mod places; // where an image has what
pub mod report; // what it learns beside the result number
pub mod store; // from a module to bytes
