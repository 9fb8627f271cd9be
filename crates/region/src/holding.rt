// What holders hold and lack, what is free, and who gets a cell: on numbers, before any cell is looked at.
ghost use Rattle.std.specs.Prelude.{◌≡◌, ◌≤◌, ◌<◌, length, sum};
ghost use Rattle.lent.specs.Fold as fold;
ghost use Rattle.shares.specs.Pool as pool;
ghost use Rattle.region.specs.Layout as layout;
ghost use Rattle.region.specs.Holding.{held_by, free_cells, rule_grants};
ghost use Rattle.region.specs.Holding as holding;

use super::layout::{CEILINGS, CELLS, HELD, HOLDERS, Region, SHARES};

// The sum of these bytes.
fn total(bytes: &[u8]) -> usize
    requires { length bytes.now ≤ 256 }
    ensures { result ≡ sum bytes.now }
{
    bytes.iter().map(|&n| numbers::wide(n)).sum()
}

impl Region<'_> {
    // All that is held.
    fn held_in_all(&self) -> usize
        ensures { result ≡ fold.sum layout.holders (layout.held self.now) }
    {
        total(&self.bytes[HELD..HELD + HOLDERS])
    }

    // The cells less all that is held: 96 at most, so `as u8` loses nothing.
    fn free(&self) -> u8
        ensures { result ≡ pool.free (layout.pool_in self.now) (layout.held self.now) }
    {
        CELLS.saturating_sub(self.held_in_all()) as u8
    }

    // What all holders but i lack.
    fn others_lack(&self, i: usize) -> u16
        ensures { result ≡ pool.others_lack (layout.pool_in self.now) (layout.held self.now) i }
    {
        let mut total = 0;
        for j in 0..HOLDERS {
            if j != i {
                total += shares::lack(self.bytes[SHARES + j], self.bytes[HELD + j]);
            }
        }
        total
    }

    // Whether the rule grants holder i a cell; that i is a holder's was tested by `granted`, which alone asks.
    fn grants(&self, i: usize) -> bool
        requires { i < layout.holders }
        ensures { result ≡ rule_grants self.now i }
    {
        let held = self.bytes[HELD + i];
        let share = self.bytes[SHARES + i];
        let ceiling = self.bytes[CEILINGS + i];
        shares::given(held, share, ceiling, self.others_lack(i), self.free())
    }
}

// How many cells holder i holds.
#[tactic(auto, unfolding(crate::specs::Holding::held_by, crate::specs::Holding::inside))]
pub fn held(r: &[u8], i: usize) -> u8
    ensures { result ≡ held_by r.now i }
{
    match Region::of(r) {
        Some(region) if i < HOLDERS => region.bytes[HELD + i],
        _ => 0,
    }
}

// How many cells are free.
#[tactic(auto, unfolding(crate::specs::Holding::free_cells))]
pub fn free(r: &[u8]) -> u8
    ensures { result ≡ free_cells r.now }
{
    Region::of(r).map_or(0, |region| region.free())
}

// Whether holder i gets a cell if it asks now.
#[tactic(auto, unfolding(crate::specs::Holding::granted, crate::specs::Holding::inside))]
pub fn granted(r: &[u8], i: usize) -> bool
    ensures { result ≡ holding.granted r.now i }
{
    Region::of(r).is_some_and(|region| i < HOLDERS && region.grants(i))
}
