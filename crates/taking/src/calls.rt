// An I-block on a slot that is busy. Numbers that are out of range are left, and nothing is done. The pool is not in sight:
// the caller says whether the I-block was stored.
ghost use Rattle.std.specs.Prelude.{◌≡◌};
ghost use Rattle.taking.specs.Calls.{asks_cell, taken};

use crate::safe::SafeTalk;
use block::Event;
use greeting::Ending;
use slot::{Next, Slot, Talk};

// Whether an event while busy is an I-block that is due: then a cell is asked for.
#[tactic(auto, unfolding(crate::specs::Calls::asks_cell))]
pub fn asks_cell(t: Talk, e: Event) -> bool
    ensures { result ≡ asks_cell t e }
{
    match e {
        Event::I { number, .. } => SafeTalk::new(t).is_some_and(|talk| talk.is_due(number)),
        _ => false,
    }
}

// Such an I-block, stored or not; the response has `length` bytes with it. Without a cell the session ends with 20.
#[tactic(auto, unfolding(crate::specs::Calls::taken))]
pub fn take(t: Talk, e: Event, stored: bool, length: usize) -> Next
    ensures { result ≡ taken t e stored length }
{
    match SafeTalk::new(t) {
        Some(talk) if stored => talk.accept(matches!(e, Event::I { more: true, .. }), length),
        Some(_) => greeting::end(Ending::NoCell as u8, t.turn.sent),
        None => greeting::rest(Slot::Busy { talk: t }, 0),
    }
}
