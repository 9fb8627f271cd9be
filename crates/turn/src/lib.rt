// The terminal's turn: what a command, and an event while busy, make of a slot by value, and what to send. It is the session
// of the crate `session`; proofs/ViewLaws shows it row by row.
#![tactic(auto)]

mod calls;
mod cutting;
mod rows;
mod safe;
mod sending;

pub use calls::{command, hear};
