// Numbers of one, two and four bytes at a place of lent bytes.
#![tactic(auto)]

mod number;

pub use number::{Number, wide};
