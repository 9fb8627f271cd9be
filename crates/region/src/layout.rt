// The layout of the region, as in specs/Layout and docs/LAYOUT.md. Each part starts right behind the one before.
ghost use Rattle.std.specs.Prelude.{◌≡◌, ◌≤◌, ◌<◌, length, MatchOption};
ghost use Rattle.region.specs.Layout.{size};
ghost use Rattle.region.specs.Region.{region_of};
ghost use Rattle.region.specs.Sound.{piece_size};
ghost use Rattle.region.specs.Holding.{inside};

use std::marker::Model;

pub const HOLDERS: usize = 8;

pub const CELLS: usize = 96;
// bytes in a cell
pub const CELL: usize = 254;
// the owner of a cell that nobody owns
pub const UNOWNED: u8 = 255;

pub const SHARES: usize = 0;

pub const CEILINGS: usize = SHARES + HOLDERS;

pub const HELD: usize = CEILINGS + HOLDERS;

pub const OWNERS: usize = HELD + HOLDERS;

pub const PLACES: usize = OWNERS + CELLS;

pub const LENGTHS: usize = PLACES + CELLS;

pub const LISTS: usize = LENGTHS + CELLS;

pub const CELLS_AT: usize = LISTS + HOLDERS * CELLS;
// bytes in the region
pub const SIZE: usize = CELLS_AT + CELLS * CELL;

// Bytes with a whole region at their front, seen as those bytes.
#[derive(Drop)]
pub struct Region<'a> {
    pub bytes: &'a [u8],
}

impl<'a> Model for Region<'a> {
    ghost use Rattle.std.specs.Prelude.{ℕ, List, ◌≤◌, length};
    ghost use Rattle.region.specs.Layout as layout;

    ghost Value = { List ℕ };

    ghost view = { λ r. r.bytes.now };

    ghost invariant = { λ r. layout.size ≤ length r.bytes.now };
}

impl<'a> Region<'a> {
    // These bytes, where they are enough for a region.
    pub fn of(bytes: &'a [u8]) -> Option<Region<'a>>
        ensures value { result ≡ region_of bytes.now }
        ensures shows { MatchOption result (length bytes.now < size) (λ r. (size ≤ length bytes.now) × (r ≡ bytes.now)) }
    {
        if bytes.len() < SIZE {
            return None;
        }
        Some(Region { bytes })
    }
}

// Whether there is a region and i is one of its holders.
#[tactic(auto, unfolding(crate::specs::Holding::inside))]
pub fn is_holder(r: &[u8], i: usize) -> bool
    ensures { result ≡ inside r.now i }
{
    SIZE <= r.len() && i < HOLDERS
}

// Whether a piece may have n bytes: 1 to 254.
pub fn is_piece_size(n: usize) -> bool
    ensures { result ≡ piece_size n }
{
    (1..=CELL).contains(&n)
}
