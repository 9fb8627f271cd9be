// The check written behind a block; its length and its function are `block`'s.
ghost use Rattle.std.specs.Prelude.{◌≡◌};
ghost use Rattle.lent.specs.Place.{window, splice};
ghost use Rattle.block.specs.Check.{check_of};

use numbers::Number;

// Writes the check of the first n bytes behind them.
#[tactic(auto, unfolding(block::specs::Check::check_of))]
pub(crate) fn put_check(out: &mut [u8], n: usize)
    ensures { out.new ≡ splice out.old n (check_of (window out.old 0 n)) }
{
    let check = block::lrc(lent::part(out, 0, n));
    check.put(out, n);
}
