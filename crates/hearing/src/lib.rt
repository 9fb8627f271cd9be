// An event on a slot that is greeting or busy: the pool's region, the entry, the block that goes out, the record. Table, output
// and record stand apart, as C lends them.
#![tactic(auto)]

ghost use Rattle.std.specs.Prelude.{◌≡◌, ◌≤◌, eqb, length};
ghost use Rattle.entry.specs.Entry.{state_in};
ghost use Rattle.table.specs.Layout.{table_size, entry_in};
ghost use Rattle.hearing.specs.Event.{event_in, event_pool, event_table, event_out, event_record};

use entry::State;
use slot::Next;

fn is_greeting(t: &[u8], i: usize) -> bool
    ensures { result ≡ eqb (state_in (entry_in t.now i)) 1 }
{
    entry::state(table::entry(t, i)) == Some(State::Greeting)
}

// What an event on slot i gives. Where the slot is busy the pool's region takes the event.
#[tactic(auto, using(table::proofs::WriteLaws::pool_same, table::proofs::WriteLaws::pool_back), unfolding(call::specs::Call::next_of, call::specs::Call::pool_after, table::specs::Layout::pool_in, lent::specs::Place::window))]
fn next(t: &mut [u8], i: usize, kind: u64, bytes: &[u8]) -> Next
    requires { table_size ≤ length t.old }
    ensures value { result ≡ event_in t.old i kind bytes.now }
    ensures t_after { t.new ≡ event_pool t.old i kind bytes.now }
{
    let entry = table::entry(t, i);
    if is_greeting(t, i) {
        return terminal::greet(entry::line(entry), entry::sent(entry), kind, bytes);
    }
    let talk = entry::talk(entry);
    let pool = &mut t[table::layout::POOL..table::layout::SLOTS];
    terminal::event(pool, i, talk, kind, bytes)
}

// An event on slot i, which is greeting or busy. Where t has fewer than 32,768 bytes nothing is done. The kind is C's
// number, since `event_table` speaks of each.
#[tactic(auto, unfolding(crate::specs::Event::event_table, crate::specs::Event::event_out, crate::specs::Event::event_record))]
pub fn event(t: &mut [u8], i: usize, kind: u64, bytes: &[u8], out: &mut [u8], rec: &mut [u8])
    ensures t_after { t.new ≡ event_table t.old i kind bytes.now }
    ensures out_after { out.new ≡ event_out t.old i kind bytes.now out.old }
    ensures rec_after { rec.new ≡ event_record t.old i kind bytes.now out.old rec.old }
{
    if t.len() < table::layout::TABLE {
        return;
    }
    let n = next(t, i, kind, bytes);
    outgoing::finish(t, i, n, outgoing::none(), out, rec);
}
