// Whether a region is sound. The numbers are tested before the lists, so that the lists name 96 cells at most in all.
ghost use Rattle.std.specs.Prelude.{◌≡◌, ◌≤◌, ◌<◌, eqb, length, count_by};
ghost use Rattle.lent.specs.Fold.{all};
ghost use Rattle.shares.specs.Pool as pool;
ghost use Rattle.region.specs.Layout.{holders, cells, unowned, held, pool_in};
ghost use Rattle.region.specs.Sound.{is_piece, listed_well, list_well, counted, sound_in};
ghost use Rattle.region.specs.Sound as rules;

use region::Region;
use region::layout::{
    CEILINGS, CELLS, HELD, HOLDERS, LENGTHS, LISTS, OWNERS, PLACES, SHARES, UNOWNED,
};

// Whether cell c is holder i's piece k.
fn is_piece(r: &Region<'_>, i: usize, k: u8, c: usize) -> bool
    ensures { result ≡ is_piece r.now i k c }
{
    c < CELLS
        && usize::from(r.bytes[OWNERS + c]) == i
        && r.bytes[PLACES + c] == k
        && region::is_piece_size(numbers::wide(r.bytes[LENGTHS + c]))
}

// Whether the k-th cell of holder i's list is its piece k. That i is a holder's is asked, here and below: `are_lists` counts no
// further, and a type of a holder's number would serve these two alone.
#[tactic(auto, unfolding(region::specs::Sound::listed_well))]
fn is_listed(r: &Region<'_>, i: usize, k: u8) -> bool
    requires { i < holders }
    ensures { result ≡ listed_well r.now i k }
{
    let c = r.bytes[LISTS + (i * CELLS + usize::from(k))];
    is_piece(r, i, k, numbers::wide(c))
}

// Whether holder i's list names its pieces in order. A loop and no chain, since it runs for each cell that is held,
// in every call but open, and the compiler makes shorter work of it.
fn is_list(r: &Region<'_>, i: usize) -> bool
    requires { i < holders }
    ensures { result ≡ list_well r.now i }
{
    for k in 0..r.bytes[HELD + i] {
        if !is_listed(r, i, k) {
            return false;
        }
    }
    true
}

// Whether all holders' lists do.
fn are_lists(r: &Region<'_>) -> bool
    ensures { result ≡ all holders (list_well r.now) }
{
    (0..HOLDERS).all(|i| is_list(r, i))
}

// Whether no holder is over its ceiling, no more is held than there is, and the free cells are at least what all holders lack.
// A loop and no chain, since it tests and adds in one walk.
fn are_holdings(r: &Region<'_>) -> bool
    ensures { result ≡ pool.sound (pool_in r.now) (held r.now) }
{
    let mut total = 0;
    let mut lacking = 0;
    for j in 0..HOLDERS {
        let held = r.bytes[HELD + j];
        if r.bytes[CEILINGS + j] < held {
            return false;
        }
        total += usize::from(held);
        lacking += usize::from(shares::lack(r.bytes[SHARES + j], held));
    }
    total <= CELLS && lacking <= CELLS - total
}

// How many of these cells nobody owns. In u8, so that the compiler may count several cells at a time.
fn unowned_of(owners: &[u8]) -> u8
    requires { length owners.now ≤ cells }
    ensures { result ≡ count_by (λ o. eqb o unowned) owners.now }
{
    owners.iter().map(|&o| u8::from(o == UNOWNED)).sum()
}

// Whether as many cells are unowned as are free.
fn is_counted(r: &Region<'_>) -> bool
    ensures { result ≡ counted r.now }
{
    unowned_of(&r.bytes[OWNERS..OWNERS + CELLS]) == region::free(r.bytes)
}

// Whether shares and ceilings pass.
#[tactic(auto, unfolding(lent::specs::Place::window))]
fn are_limits(r: &Region<'_>) -> bool
    ensures { result ≡ pool.fit (pool_in r.now) }
{
    region::acceptable(
        &r.bytes[SHARES..SHARES + HOLDERS],
        &r.bytes[CEILINGS..CEILINGS + HOLDERS],
    )
}

// The four tests in order.
#[tactic(auto, unfolding(region::specs::Sound::sound_in))]
fn is_sound_in(r: &Region<'_>) -> bool
    ensures { result ≡ sound_in r.now }
{
    are_limits(r) && are_holdings(r) && is_counted(r) && are_lists(r)
}

// Whether the region is there, and sound. Takes any bytes.
#[tactic(auto, unfolding(region::specs::Sound::sound))]
pub fn is_sound(r: &[u8]) -> bool
    ensures { result ≡ rules.sound r.now }
{
    Region::of(r).is_some_and(|region| is_sound_in(&region))
}
