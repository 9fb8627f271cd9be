// The terminal's calls on a slot and the pool: an event reads its block, asks the pool where an I-block is due, and gives
// the next slot and what to send. What each does is the session of the crate `session`: specs/Shows says so.
#![tactic(auto)]

mod calls;

pub use calls::{collect, event, greet, remove};
