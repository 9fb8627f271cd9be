// The answer to reset, read: from an ATR's bytes to why it is refused, or to what attach reports.
#![tactic(auto)]

mod reading;
mod walk;

pub use reading::read;
