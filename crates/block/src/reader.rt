// Reading a block: what an event is, by its kind and its bytes, and where its INF lies.
ghost use Rattle.std.specs.Prelude.{◌≡◌};
ghost use Rattle.block.specs.Block.{inf_part};
ghost use Rattle.block.specs.Event.{inf_of};
ghost use Rattle.block.specs.Reader.{whole, bytes_of, read_of};

use super::check::is_right;
use super::event::{Event, is_well, sort};
use super::{FRAME, INF_AT};

// At least 4 bytes, length 4 + LEN, LEN at most 254.
#[tactic(auto, unfolding(crate::specs::Reader::whole))]
fn is_whole(s: &[u8]) -> bool
    ensures { result ≡ whole s.now }
{
    s.len() >= FRAME && s.len() == FRAME + usize::from(s[2]) && s[2] <= 254
}

// The bytes from byte 3 to the check.
#[tactic(auto, unfolding(crate::specs::Block::inf_part))]
fn inf_part(s: &[u8]) -> &[u8]
    ensures { result.now ≡ inf_part s.now }
{
    lent::part(s, INF_AT, s.len().saturating_sub(FRAME))
}

// Bytes with good parity: the tests behind the length in the paper's order, the check first, then NAD, then PCB and LEN.
#[tactic(auto, unfolding(crate::specs::Reader::bytes_of, crate::specs::Reader::whole))]
fn read_bytes(s: &[u8]) -> Event
    ensures { result ≡ bytes_of s.now }
{
    if !is_whole(s) {
        Event::Other
    } else if !is_right(s) {
        Event::Edc
    } else if s[0] != 0x00 {
        Event::Other
    } else {
        sort(s[1], inf_part(s))
    }
}

// An event: kind 0 is bytes with good parity, 1 a parity fault, 2 silence. A kind above 2 reads as silence.
// The kind is a number, since `read_of` says what every number reads as.
#[tactic(auto, unfolding(crate::specs::Reader::read_of))]
pub fn read(kind: u64, s: &[u8]) -> Event
    ensures { result ≡ read_of kind s.now }
{
    match kind {
        0 => read_bytes(s),
        1 => Event::Edc,
        _ => Event::Other,
    }
}

// The INF of bytes that were read as e: for a block that reads well the part of the caller's own bytes from byte 3 to
// the check, without copying; for every other event the empty part.
#[tactic(auto, unfolding(crate::specs::Event::inf_of))]
pub fn inf(e: Event, s: &[u8]) -> &[u8]
    ensures { result.now ≡ inf_of e s.now }
{
    if is_well(e) { inf_part(s) } else { &[] }
}
