// The calls that send nothing: collect and remove. They free the slot's cells and write its entry and the record. Table, output
// and record stand apart, as C lends them.
#![tactic(auto)]

ghost use Rattle.std.specs.Prelude.{◌≡◌};
ghost use Rattle.atr.specs.Answer.{zeros};
ghost use Rattle.answer.specs.Record.{told_of};
ghost use Rattle.table.specs.Layout.{with_slot};
ghost use Rattle.leaving.specs.Leave.{collect_table, collect_out, collect_record, remove_table, remove_record};

use slot::Next;

// The entry and the record; so many bytes are written to the output.
fn leave(t: &mut [u8], i: usize, n: Next, written: usize, rec: &mut [u8])
    ensures t_after { t.new ≡ with_slot t.old i n.slot }
    ensures rec_after { rec.new ≡ told_of rec.old n written zeros }
{
    table::store(t, i, n.slot);
    answer::tell(rec, n, written, outgoing::none());
}

// Collect on slot i, which is done: its response goes to the output. Where t has fewer than 32,768 bytes nothing is done.
#[tactic(auto, using(table::proofs::WriteLaws::pool_back), unfolding(crate::specs::Leave::collect_table, crate::specs::Leave::collect_out, crate::specs::Leave::collect_record, table::specs::Layout::pool_in, lent::specs::Place::window))]
pub fn collect(t: &mut [u8], i: usize, out: &mut [u8], rec: &mut [u8])
    ensures t_after { t.new ≡ collect_table t.old i out.old }
    ensures out_after { out.new ≡ collect_out t.old i out.old }
    ensures rec_after { rec.new ≡ collect_record t.old i out.old rec.old }
{
    if t.len() < table::layout::TABLE {
        return;
    }
    let written = response::response_length(table::pool(t), i);
    let line = entry::line(table::entry(t, i));
    let pool = &mut t[table::layout::POOL..table::layout::SLOTS];
    let n = terminal::collect(pool, i, line, out);
    leave(t, i, n, written, rec);
}

// Remove on slot i: it is empty. Where t has fewer than 32,768 bytes nothing is done.
#[tactic(auto, using(table::proofs::WriteLaws::pool_back), unfolding(crate::specs::Leave::remove_table, crate::specs::Leave::remove_record, table::specs::Layout::pool_in, lent::specs::Place::window))]
pub fn remove(t: &mut [u8], i: usize, rec: &mut [u8])
    ensures t_after { t.new ≡ remove_table t.old i }
    ensures rec_after { rec.new ≡ remove_record t.old rec.old }
{
    if t.len() < table::layout::TABLE {
        return;
    }
    let pool = &mut t[table::layout::POOL..table::layout::SLOTS];
    let n = terminal::remove(pool, i);
    leave(t, i, n, 0, rec);
}
