// What goes over the line of a slot: the form of a command, and the block to send.
#![tactic(auto)]

mod building;
mod form;

pub use building::send;
pub use form::is_command;
