// The calls on slot i, whose cells are in the region r of the pool. They go side by side: the public calls take them so, and a
// struct of both would be built for one line in each.
ghost use Rattle.std.specs.Prelude.{◌≡◌};
ghost use Rattle.pool.specs.Calls.{appended, released, copied};
ghost use Rattle.greeting.specs.Sending.{rests};
ghost use Rattle.terminal.specs.Calls.{greeted, due_of, settled_pool, event_of, pool_of, collected, collected_pool, removed};

use block::Event;
use slot::{Line, Next, Slot, Talk};

// An event on a slot that is greeting: kind 0 is bytes with good parity, 1 a parity fault, 2 silence. `greeted` speaks of
// every number, so a kind is no enum.
#[tactic(auto, unfolding(crate::specs::Calls::greeted))]
pub fn greet(line: Line, sent: u32, kind: u64, bytes: &[u8]) -> Next
    ensures { result ≡ greeted line sent kind bytes.now }
{
    greeting::greet(line, sent, block::read(kind, bytes))
}

// An I-block that is due: it takes a cell if the pool gives one.
#[tactic(auto, unfolding(crate::specs::Calls::due_of))]
fn store(r: &mut [u8], i: usize, t: Talk, e: Event, inf: &[u8]) -> Next
    ensures value { result ≡ due_of r.old i t e inf.now }
    ensures r_after { r.new ≡ appended r.old i inf.now }
{
    let stored = pool::append(r, i, inf);
    taking::take(t, e, stored, response::response_length(r, i))
}

// An ending frees the cells at once. It is `Next`'s number, 0 for none.
#[tactic(auto, unfolding(crate::specs::Calls::settled_pool))]
fn settle(r: &mut [u8], i: usize, ending: u8)
    ensures { r.new ≡ settled_pool r.old i ending }
{
    if ending != 0 {
        pool::release(r, i)
    }
}

// An event on a slot that is busy; the kind is as in `greet`.
#[tactic(auto, unfolding(crate::specs::Calls::event_of, crate::specs::Calls::pool_of, crate::specs::Calls::stored_in, block::specs::Reader::inf_read))]
pub fn event(r: &mut [u8], i: usize, t: Talk, kind: u64, bytes: &[u8]) -> Next
    ensures value { result ≡ event_of r.old i t kind bytes.now }
    ensures r_after { r.new ≡ pool_of r.old i t kind bytes.now }
{
    let e = block::read(kind, bytes);
    let next = if taking::asks_cell(t, e) {
        store(r, i, t, e, block::inf(e, bytes))
    } else {
        turn::hear(t, e)
    };
    settle(r, i, next.ending);
    next
}

// The cells free, and the slot as given.
fn empty(r: &mut [u8], i: usize, slot: Slot) -> Next
    ensures value { result ≡ rests slot 0 }
    ensures r_after { r.new ≡ released r.old i }
{
    pool::release(r, i);
    greeting::rest(slot, 0)
}

// Collect, from a slot that is done: the response to the front of out, the cells free, the slot ready. Where out is
// shorter, nothing is done.
#[tactic(auto, unfolding(crate::specs::Calls::collected, crate::specs::Calls::collected_pool))]
pub fn collect(r: &mut [u8], i: usize, line: Line, out: &mut [u8]) -> Next
    ensures value { result ≡ collected r.old i line out.old }
    ensures r_after { r.new ≡ collected_pool r.old i out.old }
    ensures out_after { out.new ≡ copied r.old i out.old }
{
    if response::copy_out(r, i, out) {
        empty(r, i, Slot::Ready { line })
    } else {
        greeting::rest(Slot::Done { line }, 0)
    }
}

// Remove: the cells free, the slot empty.
pub fn remove(r: &mut [u8], i: usize) -> Next
    ensures value { result ≡ removed }
    ensures r_after { r.new ≡ released r.old i }
{
    empty(r, i, Slot::Empty)
}
