// Replies: what is due for a message, its size, and its bytes in the lent room.
#![tactic(auto)]

pub mod due; // what is due, by value
pub mod message; // one message into the remaining part of the room
mod records; // the records that Get Database sends
pub mod send; // the whole reply
