// The call to one module for other languages: numbers and byte slices, by the names of dreelish.h. The crate `embed_c` exports it.
#![tactic(auto)]

pub mod call;
