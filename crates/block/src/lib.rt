// The block codec of T=1: the check and the reader. What is built is in specs/Builder, and the code in the crate `builder`.
#![tactic(auto)]

mod check;
mod event;
mod reader;

pub use check::lrc;
pub use event::Event;
pub use reader::{inf, read};

// Where INF begins, after NAD, PCB and LEN; and the length of a block without its INF.
pub const INF_AT: usize = 3;

pub const FRAME: usize = INF_AT + check::CHECK;
