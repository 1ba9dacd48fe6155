// The one call: a message, a link memory and a reply room, and what comes of them ("Result numbers").
#![tactic(auto)]

pub mod step; // decided, measured, and only then written
