// A piece of a holder's response, appended in a cell of its own.
ghost use Rattle.std.specs.Prelude.{◌≡◌, ◌≤◌, ◌<◌, length, MatchOption};
ghost use Rattle.region.specs.Layout.{holders, cells, cell_size, size, held};
ghost use Rattle.pool.specs.Calls.{lowest, stored, appends, appended};

use region::layout::{CELL, CELLS, CELLS_AT, HELD, LENGTHS, LISTS, OWNERS, PLACES, UNOWNED};

// The lowest cell that nobody owns. Where a cell was granted the region is whole, so it isn't tested again.
fn lowest_free(r: &[u8]) -> Option<usize>
    requires { size ≤ length r.now }
    ensures { MatchOption result (lowest r.now ≡ cells) (λ c. (c ≡ lowest r.now) × (c < cells)) }
{
    r[OWNERS..OWNERS + CELLS]
        .iter()
        .position(|&owner| owner == UNOWNED)
}

// Makes cell c holder i's last piece, with the bytes xs. It takes the region's bytes and asks for their length: no type
// carries a fact beside a `&mut`. Each `as u8` is of a number that the clause bounds below 256.
#[tactic(auto, unfolding(crate::specs::Calls::stored))]
fn store(r: &mut [u8], i: usize, c: usize, xs: &[u8])
    requires { (size ≤ length r.old) × (i < holders) × (c < cells) × (length xs.now ≤ cell_size) × (held r.old i < 255) }
    ensures { r.new ≡ stored r.old i (held r.old i) c xs.now }
{
    let n = r[HELD + i];
    lent::put(r, CELLS_AT + c * CELL, xs);
    r[OWNERS + c] = i as u8;
    r[PLACES + c] = n;
    r[LENGTHS + c] = xs.len() as u8;
    r[LISTS + (i * CELLS + numbers::wide(n))] = c as u8;
    r[HELD + i] = n + 1;
}

// Appends a piece of 1 to 254 bytes to holder i's response, in the lowest free cell, if the rule grants one. Answers
// whether it did; where not, nothing changes.
#[tactic(auto, unfolding(crate::specs::Calls::appends, crate::specs::Calls::appended, crate::specs::Calls::takes))]
pub fn append(r: &mut [u8], i: usize, piece: &[u8]) -> bool
    ensures value { result ≡ appends r.old i piece.now }
    ensures r_after { r.new ≡ appended r.old i piece.now }
{
    if region::is_piece_size(piece.len())
        && region::granted(r, i)
        && let Some(c) = lowest_free(r)
    {
        store(r, i, c, piece);
        true
    } else {
        false
    }
}
