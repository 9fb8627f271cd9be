// The check that ends a block. Its length and its function stand here and nowhere else.
ghost use Rattle.std.specs.Prelude.{◌≡◌};
ghost use Rattle.block.specs.Lrc.{lrc_of};
ghost use Rattle.block.specs.Check.{check_right};

// How many bytes it takes.
pub(crate) const CHECK: usize = 1;

// The exclusive or of all bytes.
pub fn lrc(s: &[u8]) -> u8
    ensures { result ≡ lrc_of s.now }
{
    s.iter().fold(0, |x, b| x ^ b)
}

// Whether a block ends in the check of what stands before it.
#[tactic(auto, unfolding(crate::specs::Check::check_right))]
pub(crate) fn is_right(block: &[u8]) -> bool
    ensures { result ≡ check_right block.now }
{
    lrc(block) == 0
}
