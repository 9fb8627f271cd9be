// A slot that is greeting: attach, and what is received until the slot is ready. And what any call gives that sends nothing.
#![tactic(auto)]

mod greeting;
mod outcome;

pub use greeting::{attach, greet};
pub use outcome::{Ending, end, rest};
