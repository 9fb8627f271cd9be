// The rack: the six calls that C makes, with numbers and lent bytes. Each returns its number and writes its answer into a
// lent record of 64 bytes. What each does, for every input, is in specs/ of the crate `call`; docs/LAYOUT.md has the bytes.
#![tactic(auto)]

mod exports;
mod opening;
mod refusal;

pub use exports::{rack_attach, rack_collect, rack_command, rack_event, rack_open, rack_remove};
