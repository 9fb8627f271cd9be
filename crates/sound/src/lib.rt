// Whether the pool's region of bytes is sound: the test of the rules in the crate `region`.
#![tactic(auto)]

mod sound;

pub use sound::is_sound;
