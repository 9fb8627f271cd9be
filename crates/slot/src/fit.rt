// Whether a slot's numbers fit, as far as ranges and counts tell. Every call leaves a slot that fits.
ghost use Rattle.std.specs.Prelude.{◌≡◌};
ghost use Rattle.slot.specs.Fit.{line_fits, cut_fits, last_fits, turn_fits, in_range, steps_fit, talk_fits, fits, InRange};

use super::parts::{Cut, Last, Line, Slot, Talk, Turn};

// IFSC 16 to 254, BWT at most what an ATR can ask for, numbers 0 or 1.
#[tactic(auto, unfolding(crate::specs::Fit::line_fits))]
pub fn is_line_fit(l: Line) -> bool
    ensures { result ≡ line_fits l }
{
    (16..=254).contains(&l.ifsc) && l.bwt <= 15371 && l.s <= 1 && l.r <= 1
}

// The last I-block has 1 to 254 bytes, and lies within a command of 4 to 261.
#[tactic(auto, unfolding(crate::specs::Fit::cut_fits))]
fn is_cut_fit(c: Cut) -> bool
    ensures { result ≡ cut_fits c }
{
    (4..=261).contains(&c.whole)
        && c.from <= c.whole
        && (1..=254).contains(&c.len)
        && c.len <= c.whole - c.from
}

// An R has a low nibble of 0 to 2; an I-block is the last sent only while it stands.
#[tactic(auto, unfolding(crate::specs::Fit::last_fits))]
fn is_last_fit(last: Last, acked: bool) -> bool
    ensures { result ≡ last_fits last acked }
{
    match last {
        Last::I => !acked,
        Last::R { nibble } => nibble <= 2,
        Last::S { .. } => true,
    }
}

// Goes 1 to 3, at most 255 requests, 1 to 3 × (272 + 96) blocks.
#[tactic(auto, unfolding(crate::specs::Fit::turn_fits))]
fn is_turn_fit(u: Turn) -> bool
    ensures { result ≡ turn_fits u }
{
    (1..=3).contains(&u.go) && u.requests <= 255 && (1..=1104).contains(&u.sent)
}

// Whether each number of a talk lies in its range.
#[tactic(auto, unfolding(crate::specs::Fit::in_range))]
pub fn is_in_range(t: Talk) -> bool
    ensures { result ≡ in_range t }
{
    is_line_fit(t.line)
        && is_cut_fit(t.cut)
        && is_last_fit(t.turn.last, t.acked)
        && is_turn_fit(t.turn)
}

// The blocks sent are no more than the goes of those that started at go 1, with those that are still to come.
// The counts are cast by `as`, since usize has no From<u32>.
#[tactic(auto, unfolding(crate::specs::Fit::steps_fit))]
fn are_steps_fit(t: Talk, held: u8) -> bool
    requires { InRange t }
    ensures { result ≡ steps_fit t held }
{
    let blocks = (t.cut.whole - (t.cut.from + t.cut.len)).div_ceil(16);
    let started = 16 + usize::from(held) + t.turn.requests as usize;
    held <= 96 && t.turn.sent as usize + 3 * blocks <= 3 * started + usize::from(t.turn.go)
}

// The ranges; where an R stands, nothing of the command is left; and the blocks sent.
#[tactic(auto, unfolding(crate::specs::Fit::talk_fits))]
fn is_talk_fit(t: Talk, held: u8) -> bool
    ensures { result ≡ talk_fits t held }
{
    is_in_range(t) && !(t.acked && t.cut.has_more()) && are_steps_fit(t, held)
}

// Whether a slot that holds so many cells fits.
#[tactic(auto, unfolding(crate::specs::Fit::fits))]
pub fn is_fit(x: Slot, held: u8) -> bool
    ensures { result ≡ fits x held }
{
    match x {
        Slot::Empty | Slot::Ended => held == 0,
        Slot::Greeting { line, sent } => held == 0 && (1..=3).contains(&sent) && is_line_fit(line),
        Slot::Ready { line } => held == 0 && is_line_fit(line),
        Slot::Busy { talk } => is_talk_fit(talk, held),
        Slot::Done { line } => is_line_fit(line),
    }
}
