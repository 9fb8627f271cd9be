// A slot's numbers, by value: its parts, and when they fit what calls can leave. What they show of the paper's
// session is in specs/View, and the block to send in specs/Blocks.
#![tactic(auto)]

mod fit;
mod parts;

pub use fit::{is_fit, is_in_range, is_line_fit};
pub use parts::{Cut, Last, Line, Next, Send, Slot, Talk, Turn};
