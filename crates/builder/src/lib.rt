// The builder of the block codec.
#![tactic(auto)]

mod builder;
mod check;

pub use builder::build;
