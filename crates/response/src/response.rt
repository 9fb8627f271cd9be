// A holder's response: its pieces joined.
ghost use Rattle.std.specs.Prelude.{◌≡◌, ◌≤◌, ◌<◌, true, false, length, MatchOption};
ghost use Rattle.lent.specs.Place.{within, splice};
ghost use Rattle.region.specs.Layout.{holders, held, listed};
ghost use Rattle.region.specs.Holding.{inside};
ghost use Rattle.pool.specs.Calls.{bytes_in, joined, response, copied};

use region::Region;
use region::layout::{CELL, CELLS, CELLS_AT, HELD, HOLDERS, LENGTHS, LISTS};

// The bytes in cell c, none where its number or its length is out of range.
fn bytes_of<'a>(r: &Region<'a>, c: usize) -> &'a [u8]
    ensures { result.now ≡ bytes_in r.now c }
{
    if CELLS <= c {
        return &[];
    }
    let n = usize::from(r.bytes[LENGTHS + c]);
    if CELL < n {
        return &[];
    }
    lent::part(r.bytes, CELLS_AT + c * CELL, n)
}

// The pieces of a holder of a region.
#[derive(Drop)]
struct Pieces<'a> {
    region: Region<'a>,
    i: usize,
    ghost is_holder: { i < holders },
}

impl<'a> Pieces<'a> {
    // The pieces of holder i, where there is a region and i is one of its holders.
    #[tactic(auto, unfolding(region::specs::Holding::inside))]
    fn of(r: &'a [u8], i: usize) -> Option<Pieces<'a>>
        ensures { MatchOption result (inside r.now i ≡ false) (λ p. (inside r.now i ≡ true) × (p.region ≡ r.now) × (p.i ≡ i)) }
    {
        let region = Region::of(r)?;
        if i < HOLDERS {
            Some(Pieces { region, i })
        } else {
            None
        }
    }

    // Piece k.
    fn piece(&self, k: u8) -> &'a [u8]
        ensures { result.now ≡ bytes_in self.now.region (listed self.now.region self.now.i k) }
    {
        let c = self.region.bytes[LISTS + (self.i * CELLS + usize::from(k))];
        bytes_of(&self.region, numbers::wide(c))
    }

    // How many there are.
    fn count(&self) -> u8
        ensures { result ≡ held self.now.region self.now.i }
    {
        self.region.bytes[HELD + self.i]
    }

    // The length of all.
    fn length(&self) -> usize
        ensures { result ≡ length (joined self.now.region self.now.i (held self.now.region self.now.i)) }
    {
        (0..self.count()).map(|k| self.piece(k).len()).sum()
    }

    // Joins all at the front of out.
    fn join_into(&self, out: &mut [u8])
        requires { length (joined self.now.region self.now.i (held self.now.region self.now.i)) ≤ length out.old }
        ensures { out.new ≡ splice out.old 0 (joined self.now.region self.now.i (held self.now.region self.now.i)) }
    {
        let mut at = 0;
        for k in 0..self.count() {
            let piece = self.piece(k);
            lent::put(out, at, piece);
            at += piece.len();
        }
    }
}

// The length of holder i's response.
#[tactic(auto, unfolding(pool::specs::Calls::response))]
pub fn response_length(r: &[u8], i: usize) -> usize
    ensures { result ≡ length (response r.now i) }
{
    Pieces::of(r, i).map_or(0, |pieces| pieces.length())
}

// Copies holder i's response to the front of out and answers true; where out is shorter, it stays and the answer is false.
#[tactic(auto, unfolding(pool::specs::Calls::response, pool::specs::Calls::copied))]
pub fn copy_out(r: &[u8], i: usize, out: &mut [u8]) -> bool
    ensures value { result ≡ within out.old 0 (length (response r.now i)) }
    ensures out_after { out.new ≡ copied r.now i out.old }
{
    let Some(pieces) = Pieces::of(r, i) else {
        return true;
    };
    let fits = pieces.length() <= out.len();
    if fits {
        pieces.join_into(out);
    }
    fits
}
