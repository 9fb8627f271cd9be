// The slot that an entry's bytes are. Any bytes are read; a number that is not there is 0.
ghost use Rattle.std.specs.Prelude.{◌≡◌};
ghost use Rattle.entry.specs.State.{Names, state_with};
ghost use Rattle.entry.specs.Entry.{line_in, cut_in, last_in, turn_in, talk_in, sent_in, slot_in, state_in, formed};

use super::layout;
use super::states::State;
use numbers::Number;
use slot::{Cut, Last, Line, Slot, Talk, Turn};

// IFSC, BWT, s and r.
#[tactic(auto, unfolding(crate::specs::Entry::line_in))]
pub fn line(w: &[u8]) -> Line
    ensures { result ≡ line_in w.now }
{
    Line {
        ifsc: u8::get(w, layout::IFSC),
        bwt: u32::from(u16::get(w, layout::BWT)),
        s: u8::get(w, layout::S),
        r: u8::get(w, layout::R),
    }
}

// The blocks sent.
pub fn sent(w: &[u8]) -> u32
    ensures { result ≡ sent_in w.now }
{
    u32::from(u16::get(w, layout::SENT))
}

#[tactic(auto, unfolding(crate::specs::Entry::cut_in))]
fn cut(w: &[u8]) -> Cut
    ensures { result ≡ cut_in w.now }
{
    Cut {
        whole: usize::from(u16::get(w, layout::WHOLE)),
        from: usize::from(u16::get(w, layout::FROM)),
        len: usize::from(u8::get(w, layout::LEN)),
    }
}

// The last block, by its sort: 0, 1, and any other number an S, as `last_in` reads them; so a sort is no enum.
#[tactic(auto, unfolding(crate::specs::Entry::last_in))]
fn last(w: &[u8]) -> Last
    ensures { result ≡ last_in w.now }
{
    let value = u8::get(w, layout::VALUE);
    match u8::get(w, layout::LAST) {
        0 => Last::I,
        1 => Last::R { nibble: value },
        _ => Last::S {
            pcb: value,
            byte: u8::get(w, layout::BYTE),
        },
    }
}

#[tactic(auto, unfolding(crate::specs::Entry::turn_in))]
fn turn(w: &[u8]) -> Turn
    ensures { result ≡ turn_in w.now }
{
    Turn {
        last: last(w),
        go: u8::get(w, layout::GO),
        requests: u32::from(u8::get(w, layout::REQUESTS)),
        sent: sent(w),
    }
}

// A command under way. In line, so that where the entry's length is known no read of it is tested again.
#[inline(always)]
#[tactic(auto, unfolding(crate::specs::Entry::talk_in))]
pub fn talk(w: &[u8]) -> Talk
    ensures { result ≡ talk_in w.now }
{
    Talk {
        line: line(w),
        cut: cut(w),
        acked: u8::get(w, layout::ACKED) == 1,
        turn: turn(w),
    }
}

// The state; None where its number is above 5.
pub fn state(w: &[u8]) -> Option<State>
    ensures value { result ≡ state_with (state_in w.now) }
    ensures names { Names (state_in w.now) result }
{
    State::try_from(u8::get(w, layout::STATE)).ok()
}

// The slot, by its state. An empty one first, and the line before the others are told apart: so the compiler makes a branch
// of it and no jump by a table, which each empty slot would take in every call but open.
#[tactic(auto, unfolding(crate::specs::Entry::slot_in))]
pub fn slot(w: &[u8]) -> Slot
    ensures { result ≡ slot_in w.now }
{
    if let Some(State::Empty) = state(w) {
        return Slot::Empty;
    }
    let line = line(w);
    match state(w) {
        Some(State::Greeting) => Slot::Greeting {
            line,
            sent: sent(w),
        },
        Some(State::Ready) => Slot::Ready { line },
        Some(State::Busy) => Slot::Busy { talk: talk(w) },
        Some(State::Done) => Slot::Done { line },
        Some(State::Ended) => Slot::Ended,
        Some(State::Empty) | None => Slot::Empty,
    }
}

// Whether the numbers that name a case name one.
#[tactic(auto, unfolding(crate::specs::Entry::formed))]
pub fn is_formed(w: &[u8]) -> bool
    ensures { result ≡ formed w.now }
{
    state(w).is_some() && u8::get(w, layout::ACKED) <= 1 && u8::get(w, layout::LAST) <= 2
}
