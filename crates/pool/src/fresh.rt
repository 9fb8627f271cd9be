// A fresh region.
ghost use Rattle.std.specs.Prelude.{◌≡◌};
ghost use Rattle.pool.specs.Calls.{lays_out, laid_out};

use region::layout::{CEILINGS, CELLS, HELD, HOLDERS, OWNERS, PLACES, SHARES, SIZE, UNOWNED};

// Lays out a pool with these shares and ceilings: nothing is held, and nobody owns a cell. Answers whether it did; where
// r is too short or the limits do not pass, r stays. Every byte of the region is written, so that nothing of an earlier
// pool remains. Shares and ceilings go side by side, as `lays_out` and C take them.
#[tactic(auto, unfolding(crate::specs::Calls::lays_out, crate::specs::Calls::laid_out))]
pub fn lay_out(r: &mut [u8], shares: &[u8; 8], ceilings: &[u8; 8]) -> bool
    ensures value { result ≡ lays_out r.old shares.now ceilings.now }
    ensures r_after { r.new ≡ laid_out r.old shares.now ceilings.now }
{
    if r.len() < SIZE || !region::acceptable(shares, ceilings) {
        return false;
    }
    lent::put(r, SHARES, shares);
    lent::put(r, CEILINGS, ceilings);
    lent::fill(r, HELD, HOLDERS, 0);
    lent::fill(r, OWNERS, CELLS, UNOWNED);
    lent::fill(r, PLACES, SIZE - PLACES, 0);
    true
}
