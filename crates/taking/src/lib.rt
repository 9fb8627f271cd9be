// An I-block that is due, on a slot by value: whether a cell is asked for, and what is made of it with the cell or without. It
// is the session of the crate `session`; proofs/ViewLaws shows it.
#![tactic(auto)]

mod calls;
mod rows;
mod safe;

pub use calls::{asks_cell, take};
