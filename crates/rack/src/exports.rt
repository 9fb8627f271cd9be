// The six calls. C makes them through the crate `rack_c`, which exports them under the same names and promises. A slot number
// is cast by `as`, since usize has no From<u64>.
ghost use Rattle.std.specs.Prelude.{◌≡◌};
ghost use Rattle.lent.specs.Place.{splice};
ghost use Rattle.session.specs.Call.{refuses};
ghost use Rattle.answer.specs.Record.{told};
ghost use Rattle.answer.specs.Refusal.{refusal_no};
ghost use Rattle.call.specs.Call.{attaching, commanding, hearing, collecting, removing, answer, table_after};
ghost use Rattle.call.specs.Open.{open_answer, opened};

use answer::Refusal;

// Writes a refusal into the record and returns its number.
fn refused(rec: &mut [u8], refusal: Refusal) -> u64
    ensures value { result ≡ refusal_no refusal }
    ensures rec_after { rec.new ≡ told rec.old (refuses (refusal_no refusal)) }
{
    let number = u8::from(refusal);
    answer::refuse(rec, number);
    u64::from(number)
}

// Open: a fresh table with these shares and ceilings.
#[tactic(auto, using(call::proofs::OpenLaws::open_given, call::proofs::OpenLaws::open_refused, crate::proofs::RefusedLaws::refusal_some))]
pub fn rack_open(table: &mut [u8], shares: &[u8; 8], ceilings: &[u8; 8], rec: &mut [u8]) -> u64
    ensures value { result ≡ (open_answer table.old shares.now ceilings.now rec.old).number }
    ensures table_after { table.new ≡ opened table.old shares.now ceilings.now rec.old }
    ensures rec_after { rec.new ≡ told rec.old (open_answer table.old shares.now ceilings.now rec.old) }
{
    match super::opening::open(table.len(), shares, ceilings, rec.len()) {
        Ok(()) => {
            table::lay_out(table, shares, ceilings);
            // number 0, state empty and all else 0
            answer::refuse(rec, 0);
            0
        }
        Err(refusal) => refused(rec, refusal),
    }
}

// Attach: a card with this ATR in an empty slot. S(IFS request) goes out.
pub fn rack_attach(table: &mut [u8], slot: u64, atr: &[u8], out: &mut [u8], rec: &mut [u8]) -> u64
    ensures value { result ≡ (answer table.old slot (attaching table.old out.old rec.old atr.now)).number }
    ensures table_after { table.new ≡ table_after table.old slot (attaching table.old out.old rec.old atr.now) }
    ensures out_after { out.new ≡ splice out.old 0 (answer table.old slot (attaching table.old out.old rec.old atr.now)).out }
    ensures rec_after { rec.new ≡ told rec.old (answer table.old slot (attaching table.old out.old rec.old atr.now)) }
{
    match super::refusal::attach(table, slot, atr, out.len(), rec.len()) {
        Ok(report) => {
            outgoing::attach(table, slot as usize, report, out, rec);
            0
        }
        Err(refusal) => refused(rec, refusal),
    }
}

// Command: its first I-block goes out.
#[tactic(auto, using(crate::proofs::RefusedLaws::err_leaves, call::proofs::AnswerLaws::command_leaves))]
pub fn rack_command(
    table: &mut [u8],
    slot: u64,
    bytes: &[u8],
    out: &mut [u8],
    rec: &mut [u8],
) -> u64
    ensures value { result ≡ (answer table.old slot (commanding table.old out.old rec.old bytes.now)).number }
    ensures table_after { table.new ≡ table_after table.old slot (commanding table.old out.old rec.old bytes.now) }
    ensures out_after { out.new ≡ splice out.old 0 (answer table.old slot (commanding table.old out.old rec.old bytes.now)).out }
    ensures rec_after { rec.new ≡ told rec.old (answer table.old slot (commanding table.old out.old rec.old bytes.now)) }
{
    match super::refusal::command(table, slot, bytes, out.len(), rec.len()) {
        Ok(()) => {
            outgoing::command(table, slot as usize, bytes, out, rec);
            0
        }
        Err(refusal) => refused(rec, refusal),
    }
}

// Event: what the card sent (kind 0), a parity fault (1), or silence (2). C gives the kind, so any number may come.
pub fn rack_event(
    table: &mut [u8],
    slot: u64,
    kind: u64,
    bytes: &[u8],
    out: &mut [u8],
    rec: &mut [u8],
) -> u64
    ensures value { result ≡ (answer table.old slot (hearing table.old out.old rec.old kind bytes.now)).number }
    ensures table_after { table.new ≡ table_after table.old slot (hearing table.old out.old rec.old kind bytes.now) }
    ensures out_after { out.new ≡ splice out.old 0 (answer table.old slot (hearing table.old out.old rec.old kind bytes.now)).out }
    ensures rec_after { rec.new ≡ told rec.old (answer table.old slot (hearing table.old out.old rec.old kind bytes.now)) }
{
    match super::refusal::event(table, slot, kind, out.len(), rec.len()) {
        Ok(()) => {
            hearing::event(table, slot as usize, kind, bytes, out, rec);
            0
        }
        Err(refusal) => refused(rec, refusal),
    }
}

// Collect: the response of a slot that is done.
pub fn rack_collect(table: &mut [u8], slot: u64, out: &mut [u8], rec: &mut [u8]) -> u64
    ensures value { result ≡ (answer table.old slot (collecting table.old out.old rec.old)).number }
    ensures table_after { table.new ≡ table_after table.old slot (collecting table.old out.old rec.old) }
    ensures out_after { out.new ≡ splice out.old 0 (answer table.old slot (collecting table.old out.old rec.old)).out }
    ensures rec_after { rec.new ≡ told rec.old (answer table.old slot (collecting table.old out.old rec.old)) }
{
    match super::refusal::collect(table, slot, out.len(), rec.len()) {
        Ok(()) => {
            leaving::collect(table, slot as usize, out, rec);
            0
        }
        Err(refusal) => refused(rec, refusal),
    }
}

// Remove: the slot is empty.
pub fn rack_remove(table: &mut [u8], slot: u64, rec: &mut [u8]) -> u64
    ensures value { result ≡ (answer table.old slot (removing table.old rec.old)).number }
    ensures table_after { table.new ≡ table_after table.old slot (removing table.old rec.old) }
    ensures rec_after { rec.new ≡ told rec.old (answer table.old slot (removing table.old rec.old)) }
{
    match super::refusal::remove(table, slot, rec.len()) {
        Ok(()) => {
            leaving::remove(table, slot as usize, rec);
            0
        }
        Err(refusal) => refused(rec, refusal),
    }
}
