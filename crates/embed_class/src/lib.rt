// The call to a class for other languages, by the names of dreelish.h. The crate `embed_class_c` exports it. It is a library of its own: what
// both calls share would else be called from two places, and so be a call in both.
#![tactic(auto)]

pub mod call;
mod strip; // images one behind the other
mod serve; // a message to them
