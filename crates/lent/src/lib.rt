// Lent bytes: read and written at a place. Every table and buffer above goes through these functions.
// A place may be any number: what does not lie within the bytes reads as nothing and is not written.
#![tactic(auto)]

mod place;
mod run;

pub use place::{lies_within, part, put};
pub use run::fill;
