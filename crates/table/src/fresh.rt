// A fresh table.
ghost use Rattle.std.specs.Prelude.{◌≡◌, true, ◌≤◌, length};
ghost use Rattle.lent.specs.Place.{splice};
ghost use Rattle.shares.specs.Pool.{fit};
ghost use Rattle.region.specs.Layout.{pool_of};
ghost use Rattle.table.specs.Layout.{table_size};
ghost use Rattle.table.specs.Fresh.{fresh, lays_out, laid_out};

use super::layout;

// Writes every byte of the table, so that nothing of an earlier one remains. Shares and ceilings go side by side, as C lends
// them.
fn write_all(t: &mut [u8], shares: &[u8; 8], ceilings: &[u8; 8])
    requires long { table_size ≤ length t.old }
    requires fits { fit (pool_of shares.now ceilings.now) ≡ true }
    ensures { t.new ≡ splice t.old 0 (fresh shares.now ceilings.now) }
{
    let head = [0x54u8, 0x42, 0x4C, 0, 1, 0, 0, 0];
    lent::put(t, layout::MARK, &head);
    pool::lay_out(&mut t[layout::POOL..layout::SLOTS], shares, ceilings);
    lent::fill(t, layout::SLOTS, layout::TABLE - layout::SLOTS, 0);
}

// Lays out a table with these shares and ceilings: all cells unowned, all slots empty. Answers whether it did; where t is
// too short or the limits do not pass 2, t stays.
#[tactic(auto, unfolding(crate::specs::Fresh::lays_out, crate::specs::Fresh::laid_out))]
pub fn lay_out(t: &mut [u8], shares: &[u8; 8], ceilings: &[u8; 8]) -> bool
    ensures value { result ≡ lays_out t.old shares.now ceilings.now }
    ensures t_after { t.new ≡ laid_out t.old shares.now ceilings.now }
{
    let lays = layout::TABLE <= t.len() && region::acceptable(shares, ceilings);
    if lays {
        write_all(t, shares, ceilings);
    }
    lays
}
