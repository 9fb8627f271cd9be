// The layout of the table, as in specs/Layout and docs/LAYOUT.md.

// bytes in the table
pub const TABLE: usize = 32768;

pub const MARK: usize = 0;

pub const VERSION: usize = 3;

pub const POOL: usize = 8;
// right behind the pool's region
pub const SLOTS: usize = POOL + region::layout::SIZE;
// bytes for a slot: its entry at the front, its command at COMMAND
pub const SLOT: usize = 320;

pub const COMMAND: usize = 32;
// bytes in the longest command
pub const COMMAND_SIZE: usize = 261;
