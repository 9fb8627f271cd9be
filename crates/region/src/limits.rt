// What open asks of shares and ceilings (refusal 2).
ghost use Rattle.std.specs.Prelude.{◌≡◌, ◌&&◌, leb};
ghost use Rattle.shares.specs.Pool.{fit};
ghost use Rattle.region.specs.Layout.{cells, pool_of};

use super::layout::{CELLS, HOLDERS};
use numbers::Number;

// No share above its ceiling, no ceiling above the cells.
fn in_order(share: u8, ceiling: u8) -> bool
    ensures { result ≡ (leb share ceiling && leb ceiling cells) }
{
    share <= ceiling && numbers::wide(ceiling) <= CELLS
}

// Whether a pool opens with these shares and ceilings: so for all holders, and the shares add to no more than the cells.
// A share or a ceiling that is not there counts as 0. A loop and no chain, since it tests and adds in one walk.
// Not in line: the soundness test around it needs the registers.
#[inline(never)]
pub fn acceptable(shares: &[u8], ceilings: &[u8]) -> bool
    ensures { result ≡ fit (pool_of shares.now ceilings.now) }
{
    let mut total = 0;
    for i in 0..HOLDERS {
        let share = u8::get(shares, i);
        if !in_order(share, u8::get(ceilings, i)) {
            return false;
        }
        total += numbers::wide(share);
    }
    total <= CELLS
}
