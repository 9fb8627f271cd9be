// A part of lent bytes at a place: lent on to read it, or written over.
ghost use Rattle.std.specs.Prelude.{◌≡◌, length};
ghost use Rattle.lent.specs.Place.{within, window, splice};

// Whether n bytes from place a lie within t.
pub fn lies_within(t: &[u8], a: usize, n: usize) -> bool
    ensures { result ≡ within t.now a n }
{
    a <= t.len() && n <= t.len() - a
}

// The n bytes of t from place a, fewer where t ends before: a part of t itself, nothing is copied.
#[tactic(auto, unfolding(crate::specs::Place::window))]
pub fn part(t: &[u8], a: usize, n: usize) -> &[u8]
    ensures { result.now ≡ window t.now a n }
{
    if t.len() < a {
        &[]
    } else if t.len() - a < n {
        &t[a..]
    } else {
        &t[a..a + n]
    }
}

// Copies src over t from place a and answers true; where it does not lie within t, t stays and the answer is false. Byte by
// byte: the library's `copy_from_slice` would have the archive for C ask for `memmove`.
#[tactic(auto, using(crate::proofs::PlaceLaws::splice_out))]
pub fn put(t: &mut [u8], a: usize, src: &[u8]) -> bool
    ensures value { result ≡ within t.old a (length src.now) }
    ensures t_after { t.new ≡ splice t.old a src.now }
{
    let fits = lies_within(t, a, src.len());
    if fits {
        for j in 0..src.len() {
            t[a + j] = src[j];
        }
    }
    fits
}
