// A run of one byte at a place.
ghost use Rattle.std.specs.Prelude.{◌≡◌, replicate};
ghost use Rattle.lent.specs.Place.{within, splice};

use super::place::lies_within;

// Writes v over n bytes of t from place a and answers true; where they do not lie within t, t stays and the answer is false.
#[tactic(auto, using(crate::proofs::PlaceLaws::lent_back, crate::proofs::PlaceLaws::fill_out))]
pub fn fill(t: &mut [u8], a: usize, n: usize, v: u8) -> bool
    ensures value { result ≡ within t.old a n }
    ensures t_after { t.new ≡ splice t.old a (replicate n v) }
{
    let fits = lies_within(t, a, n);
    if fits {
        t[a..a + n].fill(v);
    }
    fits
}
