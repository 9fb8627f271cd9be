// The pool's region of bytes, read: what stands where, whether shares and ceilings pass, what holders hold, and who gets
// a cell. When all of it is sound is in specs/Sound, and the test in the crate `sound`. Which bytes stand where is in docs/LAYOUT.md and specs/Layout.
#![tactic(auto)]

mod holding;
pub mod layout;
mod limits;

pub use holding::{free, granted, held};
pub use layout::{Region, is_holder, is_piece_size};
pub use limits::acceptable;
