// The calls that send: the block goes to the output, the slot into the table, the answer into the record. Any bytes and any
// slot number are taken. Table, output and record are three parameters in each call, since C lends them apart.
#![tactic(auto)]

ghost use Rattle.std.specs.Prelude.{◌≡◌};
ghost use Rattle.atr.specs.Answer.{zeros};
ghost use Rattle.slot.specs.Blocks.{sent_length, sent_out};
ghost use Rattle.greeting.specs.Greeting.{attached};
ghost use Rattle.turn.specs.Calls.{commanded};
ghost use Rattle.answer.specs.Record.{told_of};
ghost use Rattle.entry.specs.Entry.{line_in};
ghost use Rattle.table.specs.Layout.{entry_in, command_in, with_slot, with_command};

use atr::Report;
use slot::Next;

// What other calls than attach report.
pub fn none() -> Report
    ensures { result ≡ zeros }
{
    Report::default()
}

// What attach and an event give: the block is cut from the command that the slot keeps.
pub fn finish(t: &mut [u8], i: usize, n: Next, r: Report, out: &mut [u8], rec: &mut [u8])
    ensures t_after { t.new ≡ with_slot t.old i n.slot }
    ensures out_after { out.new ≡ sent_out out.old n.send (command_in t.old i) }
    ensures rec_after { rec.new ≡ told_of rec.old n (sent_length out.old n.send (command_in t.old i)) r }
{
    let written = wire::send(out, n.send, table::command(t, i));
    table::store(t, i, n.slot);
    answer::tell(rec, n, written, r);
}

// Attach, where the ATR gives this report: S(IFS request) goes out.
pub fn attach(t: &mut [u8], i: usize, r: Report, out: &mut [u8], rec: &mut [u8])
    ensures t_after { t.new ≡ with_slot t.old i (attached r).slot }
    ensures out_after { out.new ≡ sent_out out.old (attached r).send (command_in t.old i) }
    ensures rec_after { rec.new ≡ told_of rec.old (attached r) (sent_length out.old (attached r).send (command_in t.old i)) r }
{
    finish(t, i, greeting::attach(r), r, out, rec);
}

// Command: it is kept, and its first I-block goes out.
pub fn command(t: &mut [u8], i: usize, bytes: &[u8], out: &mut [u8], rec: &mut [u8])
    ensures t_after { t.new ≡ with_slot (with_command t.old i bytes.now) i (commanded (line_in (entry_in t.old i)) bytes.now).slot }
    ensures out_after { out.new ≡ sent_out out.old (commanded (line_in (entry_in t.old i)) bytes.now).send bytes.now }
    ensures rec_after { rec.new ≡ told_of rec.old (commanded (line_in (entry_in t.old i)) bytes.now) (sent_length out.old (commanded (line_in (entry_in t.old i)) bytes.now).send bytes.now) zeros }
{
    let n = turn::command(entry::line(table::entry(t, i)), bytes);
    let written = wire::send(out, n.send, bytes);
    table::keep(t, i, bytes);
    table::store(t, i, n.slot);
    answer::tell(rec, n, written, none());
}
