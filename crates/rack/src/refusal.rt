// Refusals of the calls on a slot: the lowest number that applies. Of output and record the tests know the lengths alone, as
// `lends` does: no buffer is read or written here. A slot number is cast by `as`, since usize has no From<u64>.
ghost use Rattle.std.specs.Prelude.{◌≡◌, not, ◌||◌, [], ◌∷◌, eqb, ltb, length, IfOk};
ghost use Rattle.atr.specs.Answer.{answer_of, report_in};
ghost use Rattle.session.specs.Call.{attach, command, event, collect, remove};
ghost use Rattle.entry.specs.Entry.{state_in};
ghost use Rattle.entry.specs.State.{state_number};
ghost use Rattle.table.specs.Layout.{entry_in};
ghost use Rattle.answer.specs.Refusal.{returned_no};
ghost use Rattle.call.specs.Call.{lends, shared, refusal_of};

use answer::Refusal;
use atr::Report;
use entry::State;

// the output that a block needs
const SENDING: usize = 258;

// The tests that all calls on a slot share, of flags for the state and the lengths lent.
fn tried(t: &[u8], slot: u64, wrong: bool, short: bool) -> Result<(), Refusal>
    ensures { returned_no result ≡ shared t.now slot wrong short }
{
    if !table::is_sound(t) {
        return Err(Refusal::Table);
    }
    if 7 < slot {
        return Err(Refusal::Slot);
    }
    if wrong {
        return Err(Refusal::State);
    }
    if short {
        return Err(Refusal::Lent);
    }
    Ok(())
}

// Whether the slot is in this state; one that isn't there is empty.
fn is_in(t: &[u8], slot: u64, state: State) -> bool
    ensures { result ≡ eqb (state_in (entry_in t.now slot)) (state_number state) }
{
    entry::state(table::entry(t, slot as usize)) == Some(state)
}

// Greeting or busy.
fn is_awaiting(t: &[u8], slot: u64) -> bool
    ensures { result ≡ (eqb (state_in (entry_in t.now slot)) 1 || eqb (state_in (entry_in t.now slot)) 3) }
{
    matches!(
        entry::state(table::entry(t, slot as usize)),
        Some(State::Greeting | State::Busy)
    )
}

// Record shorter than 64 bytes, or output shorter than it needs to be.
fn is_short(rec: usize, out: usize, need: usize) -> bool
    ensures { result ≡ (ltb rec 64 || ltb out need) }
{
    rec < answer::RECORD || out < need
}

// Attach needs empty, and then an ATR that is on our terms.
#[tactic(auto, using(call::proofs::RefusalLaws::attach_tried, crate::proofs::RefusedLaws::or_refused))]
pub(crate) fn attach(
    t: &[u8],
    slot: u64,
    atr: &[u8],
    out: usize,
    rec: usize,
) -> Result<Report, Refusal>
    ensures number { returned_no result ≡ refusal_of t.now slot (attach (lends (length t.now) out rec) atr.now) }
    ensures report { IfOk result (λ report. report ≡ report_in (answer_of atr.now)) }
{
    tried(
        t,
        slot,
        !is_in(t, slot, State::Empty),
        is_short(rec, out, SENDING),
    )?;
    Ok(reset::read(atr)?)
}

// Command needs ready, and a good form.
#[tactic(auto, using(crate::proofs::TriedLaws::command_tried, crate::proofs::RefusedLaws::or_refused))]
pub(crate) fn command(
    t: &[u8],
    slot: u64,
    bytes: &[u8],
    out: usize,
    rec: usize,
) -> Result<(), Refusal>
    ensures { returned_no result ≡ refusal_of t.now slot (command (lends (length t.now) out rec) bytes.now) }
{
    tried(
        t,
        slot,
        !is_in(t, slot, State::Ready),
        is_short(rec, out, SENDING),
    )?;
    if wire::is_command(bytes) {
        Ok(())
    } else {
        Err(Refusal::Form)
    }
}

// Event needs greeting or busy, and a kind of 0 to 2: C's number, since every one above 2 is refused with 6. Its bytes are not
// looked at here.
#[tactic(auto, using(crate::proofs::TriedLaws::event_tried, crate::proofs::RefusedLaws::or_refused))]
pub(crate) fn event(t: &[u8], slot: u64, kind: u64, out: usize, rec: usize) -> Result<(), Refusal>
    ensures { returned_no result ≡ refusal_of t.now slot (event (lends (length t.now) out rec) kind []) }
{
    tried(t, slot, !is_awaiting(t, slot), is_short(rec, out, SENDING))?;
    if 2 < kind { Err(Refusal::Kind) } else { Ok(()) }
}

// Collect needs done, and an output that holds the response.
#[tactic(auto, using(crate::proofs::TriedLaws::collect_tried))]
pub(crate) fn collect(t: &[u8], slot: u64, out: usize, rec: usize) -> Result<(), Refusal>
    ensures { returned_no result ≡ refusal_of t.now slot (collect (lends (length t.now) out rec)) }
{
    let need = response::response_length(table::pool(t), slot as usize);
    tried(
        t,
        slot,
        !is_in(t, slot, State::Done),
        is_short(rec, out, need),
    )
}

// Remove needs anything but empty.
#[tactic(auto, using(crate::proofs::TriedLaws::remove_tried))]
pub(crate) fn remove(t: &[u8], slot: u64, rec: usize) -> Result<(), Refusal>
    ensures { returned_no result ≡ refusal_of t.now slot (remove (lends (length t.now) 0 rec)) }
{
    tried(t, slot, is_in(t, slot, State::Empty), is_short(rec, 0, 0))
}
