// A holder's response, read from the pool's region: its length, and its bytes copied out.
#![tactic(auto)]

mod response;

pub use response::{copy_out, response_length};
