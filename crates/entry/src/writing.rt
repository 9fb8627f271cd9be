// The bytes of a slot. What a state does not need is 0.
ghost use Rattle.std.specs.Prelude.{◌≡◌, ◌∷◌, replicate};
ghost use Rattle.lent.specs.Number.{bytes_of};
ghost use Rattle.entry.specs.State.{state_number};
ghost use Rattle.entry.specs.Entry.{plain_bytes, talk_bytes, last_bytes, slot_bytes};

use super::layout;
use super::states::State;
use slot::{Last, Line, Slot, Talk};

// The low two bytes of a number, high byte first. A u32 is cast by `as`, since usize has no From<u32>, and what is below 65536
// by the remainder loses nothing.
fn two(v: usize) -> [u8; 2]
    ensures { result ≡ bytes_of 2 v }
{
    ((v % 65536) as u16).to_be_bytes()
}

// The bytes of a state that needs nothing else.
fn bare(state: State) -> [u8; layout::SIZE]
    ensures { result ≡ state_number state ∷ replicate 18 0 }
{
    let mut b = [0; layout::SIZE];
    b[layout::STATE] = u8::from(state);
    b
}

// The bytes of a state that needs a line alone, and a count of blocks sent.
fn plain(state: State, l: Line, sent: u32) -> [u8; layout::SIZE]
    ensures { result ≡ plain_bytes (state_number state) l sent }
{
    let mut b = bare(state);
    b[layout::IFSC] = l.ifsc;
    b[layout::S] = l.s;
    b[layout::R] = l.r;
    b[layout::BWT..layout::SENT].copy_from_slice(&two(l.bwt as usize));
    b[layout::SENT..layout::WHOLE].copy_from_slice(&two(sent as usize));
    b
}

// The sort of the last block sent, its value and its byte. The sort is a byte of the entry: 0, 1 or 2.
#[tactic(auto, unfolding(crate::specs::Entry::last_bytes))]
fn last(l: Last) -> [u8; 3]
    ensures { result ≡ last_bytes l }
{
    match l {
        Last::I => [0, 0, 0],
        Last::R { nibble } => [1, nibble, 0],
        Last::S { pcb, byte } => [2, pcb, byte],
    }
}

// The bytes of a command under way. What is below 256 by the remainder loses nothing as a byte.
fn talking(t: Talk) -> [u8; layout::SIZE]
    ensures { result ≡ talk_bytes t }
{
    let [sort, value, byte] = last(t.turn.last);
    let mut b = plain(State::Busy, t.line, t.turn.sent);
    b[layout::WHOLE..layout::FROM].copy_from_slice(&two(t.cut.whole));
    b[layout::FROM..layout::LEN].copy_from_slice(&two(t.cut.from));
    b[layout::LEN] = (t.cut.len % 256) as u8;
    b[layout::ACKED] = u8::from(t.acked);
    b[layout::LAST] = sort;
    b[layout::VALUE] = value;
    b[layout::BYTE] = byte;
    b[layout::GO] = t.turn.go;
    b[layout::REQUESTS] = (t.turn.requests % 256) as u8;
    b
}

// The bytes of a slot's entry.
#[tactic(auto, unfolding(crate::specs::Entry::slot_bytes))]
pub fn bytes(x: Slot) -> [u8; layout::SIZE]
    ensures { result ≡ slot_bytes x }
{
    match x {
        Slot::Empty => bare(State::Empty),
        Slot::Greeting { line, sent } => plain(State::Greeting, line, sent),
        Slot::Ready { line } => plain(State::Ready, line, 0),
        Slot::Busy { talk } => talking(talk),
        Slot::Done { line } => plain(State::Done, line, 0),
        Slot::Ended => bare(State::Ended),
    }
}
