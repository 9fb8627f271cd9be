// What an event is, and how a PCB with its LEN and INF sorts into one.
ghost use Rattle.std.specs.Prelude.{◌≡◌};
ghost use Rattle.block.specs.Event.{named_of, in_range, sort_of, well_of};

use numbers::Number;

// What an event is: a block that reads well, or one of the two faults.
#[derive(Clone, Copy, Debug, PartialEq, Eq)]
pub enum Event {
    I { number: u8, more: bool },
    R { number: u8 },
    IfsRequest { size: u8 },
    IfsResponse { size: u8 },
    Abort,
    Wtx { times: u8 },
    Edc,
    Other,
}

// The block that a PCB names, v being the first byte of its INF: 14 codes, and the other 242 name none.
// Of an I-block b7 is the number and b6 says that more is to come; of an R-block b5 is the number.
#[tactic(auto, unfolding(crate::specs::Event::named_of))]
fn named(pcb: u8, v: u8) -> Event
    ensures { result ≡ named_of pcb v }
{
    match pcb {
        0x00 | 0x20 | 0x40 | 0x60 => Event::I {
            number: pcb >> 6,
            more: pcb & 0x20 != 0,
        },
        0x80..=0x82 | 0x90..=0x92 => Event::R {
            number: pcb >> 4 & 1,
        },
        0xC1 => Event::IfsRequest { size: v },
        0xE1 => Event::IfsResponse { size: v },
        0xC2 => Event::Abort,
        0xC3 => Event::Wtx { times: v },
        _ => Event::Other,
    }
}

// Whether LEN and INF are as that block asks. A match: each kind asks something else.
fn in_range(e: Event, inf: &[u8]) -> bool
    ensures { result ≡ in_range e inf.now }
{
    match e {
        Event::I { .. } => (1..=254).contains(&inf.len()),
        Event::R { .. } | Event::Abort => inf.is_empty(),
        Event::IfsRequest { .. } | Event::IfsResponse { .. } => matches!(inf, [0x10..=0xFE]),
        Event::Wtx { .. } => matches!(inf, [0x01..=0xFF]),
        Event::Edc | Event::Other => false,
    }
}

// PCB and LEN: the block that the PCB names, if LEN and INF are as it asks.
#[tactic(auto, unfolding(crate::specs::Event::sort_of))]
pub(crate) fn sort(pcb: u8, inf: &[u8]) -> Event
    ensures { result ≡ sort_of pcb inf.now }
{
    let e = named(pcb, u8::get(inf, 0));
    if in_range(e, inf) { e } else { Event::Other }
}

// Whether an event is a block that reads well.
pub(crate) fn is_well(e: Event) -> bool
    ensures { result ≡ well_of e }
{
    !matches!(e, Event::Edc | Event::Other)
}
