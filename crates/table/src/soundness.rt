// Whether a table is sound. What the test costs is bounded: it looks at mark and version, at the pool's numbers, owners
// and lists, and once at each entry; never into a cell or a command.
ghost use Rattle.std.specs.Prelude.{◌≡◌};
ghost use Rattle.lent.specs.Fold.{all};
ghost use Rattle.region.specs.Layout.{holders};
ghost use Rattle.table.specs.Sound.{headed, slot_sound};
ghost use Rattle.table.specs.Sound as rules;

use super::{layout, places};
use numbers::Number;

// The mark TBL and the version 1.
#[tactic(auto, unfolding(crate::specs::Sound::headed))]
fn is_headed(t: &[u8]) -> bool
    ensures { result ≡ headed t.now }
{
    t.starts_with(b"TBL") && u16::get(t, layout::VERSION) == 1
}

// Slot i's own part: its entry names a slot, and that fits the cells that it holds.
#[tactic(auto, unfolding(crate::specs::Sound::slot_sound))]
fn is_slot_sound(t: &[u8], i: usize) -> bool
    ensures { result ≡ slot_sound t.now i }
{
    let w = places::entry(t, i);
    entry::is_formed(w) && slot::is_fit(entry::slot(w), region::held(places::pool(t), i))
}

fn are_slots_sound(t: &[u8]) -> bool
    ensures { result ≡ all holders (slot_sound t.now) }
{
    (0..region::layout::HOLDERS).all(|i| is_slot_sound(t, i))
}

// Whether the table is there, and sound. Takes any bytes. Early returns and no chain: behind them the compiler knows the
// table's length, and no read of an entry tests it again.
#[tactic(auto, unfolding(crate::specs::Sound::sound))]
pub fn is_sound(t: &[u8]) -> bool
    ensures { result ≡ rules.sound t.now }
{
    if t.len() < layout::TABLE || !is_headed(t) {
        return false;
    }
    if !sound::is_sound(places::pool(t)) {
        return false;
    }
    are_slots_sound(t)
}
