// The parts of a table: lent on to read it, or written over. Any bytes and any slot number are taken: what is not there
// reads as nothing and is not written.
ghost use Rattle.std.specs.Prelude.{◌≡◌, cond, ltb};
ghost use Rattle.region.specs.Layout.{holders};
ghost use Rattle.table.specs.Layout.{pool_in, entry_in, command_in, with_slot, with_command};
ghost use Rattle.table.specs.Layout as rules;

use super::layout;
use numbers::Number;
use slot::Slot;

// The pool's region.
#[tactic(auto, unfolding(crate::specs::Layout::pool_in))]
pub fn pool(t: &[u8]) -> &[u8]
    ensures { result.now ≡ pool_in t.now }
{
    lent::part(t, layout::POOL, region::layout::SIZE)
}

// Where slot i's bytes start; None beyond the last slot.
fn slot_at(i: usize) -> Option<usize>
    ensures { result ≡ cond (ltb i holders) (Some (rules.slot_at i)) None }
{
    if i < region::layout::HOLDERS {
        Some(layout::SLOTS + i * layout::SLOT)
    } else {
        None
    }
}

// Slot i's entry.
#[tactic(auto, unfolding(crate::specs::Layout::entry_in))]
pub fn entry(t: &[u8], i: usize) -> &[u8]
    ensures { result.now ≡ entry_in t.now i }
{
    match slot_at(i) {
        Some(at) => lent::part(t, at, entry::layout::SIZE),
        None => &[],
    }
}

// The command that slot i keeps: as long as its entry says, and at most 261 bytes.
#[tactic(auto, unfolding(crate::specs::Layout::command_in))]
pub fn command(t: &[u8], i: usize) -> &[u8]
    ensures { result.now ≡ command_in t.now i }
{
    let whole = usize::from(u16::get(entry(t, i), entry::layout::WHOLE));
    match slot_at(i) {
        Some(at) => lent::part(t, at + layout::COMMAND, whole.min(layout::COMMAND_SIZE)),
        None => &[],
    }
}

// Writes slot i's entry.
#[tactic(auto, unfolding(crate::specs::Layout::with_slot))]
pub fn store(t: &mut [u8], i: usize, x: Slot)
    ensures { t.new ≡ with_slot t.old i x }
{
    if let Some(at) = slot_at(i) {
        lent::put(t, at, &entry::bytes(x));
    }
}

// Keeps a command of slot i; one of more than 261 bytes is not kept.
#[tactic(auto, unfolding(crate::specs::Layout::with_command))]
pub fn keep(t: &mut [u8], i: usize, bytes: &[u8])
    ensures { t.new ≡ with_command t.old i bytes.now }
{
    match slot_at(i) {
        Some(at) if bytes.len() <= layout::COMMAND_SIZE => {
            lent::put(t, at + layout::COMMAND, bytes);
        }
        _ => {}
    }
}
