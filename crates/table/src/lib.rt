// The table: 32,768 lent bytes with a mark and a version, the pool's region, and for each slot its entry and the command
// that it keeps. Which bytes stand where, and when they are sound, is in docs/LAYOUT.md and specs/.
#![tactic(auto)]

mod fresh;
pub mod layout;
mod places;
mod soundness;

pub use fresh::lay_out;
pub use places::{command, entry, keep, pool, store};
pub use soundness::is_sound;
