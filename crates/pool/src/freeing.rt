// All cells of a holder, released.
ghost use Rattle.std.specs.Prelude.{◌≡◌};
ghost use Rattle.pool.specs.Calls.{released};

use region::layout::{CELLS, HELD, LISTS, OWNERS, UNOWNED};

// Frees all cells of holder i.
#[tactic(auto, using(region::proofs::HolderLaws::inside_facts), unfolding(crate::specs::Calls::released, crate::specs::Calls::freed))]
pub fn release(r: &mut [u8], i: usize)
    ensures { r.new ≡ released r.old i }
{
    if region::is_holder(r, i) {
        for k in 0..r[HELD + i] {
            let c = r[LISTS + (i * CELLS + usize::from(k))];
            r[OWNERS + numbers::wide(c)] = UNOWNED;
        }
        r[HELD + i] = 0;
    }
}
