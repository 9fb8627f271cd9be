// The six calls as C makes them: `rack`'s, under their own names in the archive. A slice is a pointer and a length, a
// `&[u8; 8]` a pointer (include/rack.h). A static library exports its own functions alone, so each stands here once more.
#![tactic(auto)]

ghost use Rattle.std.specs.Prelude.{◌≡◌};
ghost use Rattle.lent.specs.Place.{splice};
ghost use Rattle.answer.specs.Record.{told};
ghost use Rattle.call.specs.Call.{attaching, commanding, hearing, collecting, removing, answer, table_after};
ghost use Rattle.call.specs.Open.{open_answer, opened};

// Open: a fresh table with these shares and ceilings.
#[unsafe(no_mangle)]
pub extern "C" fn rack_open(
    table: &mut [u8],
    shares: &[u8; 8],
    ceilings: &[u8; 8],
    rec: &mut [u8],
) -> u64
    ensures value { result ≡ (open_answer table.old shares.now ceilings.now rec.old).number }
    ensures table_after { table.new ≡ opened table.old shares.now ceilings.now rec.old }
    ensures rec_after { rec.new ≡ told rec.old (open_answer table.old shares.now ceilings.now rec.old) }
{
    rack::rack_open(table, shares, ceilings, rec)
}

// Attach: a card with this ATR in an empty slot. S(IFS request) goes out.
#[unsafe(no_mangle)]
pub extern "C" fn rack_attach(
    table: &mut [u8],
    slot: u64,
    atr: &[u8],
    out: &mut [u8],
    rec: &mut [u8],
) -> u64
    ensures value { result ≡ (answer table.old slot (attaching table.old out.old rec.old atr.now)).number }
    ensures table_after { table.new ≡ table_after table.old slot (attaching table.old out.old rec.old atr.now) }
    ensures out_after { out.new ≡ splice out.old 0 (answer table.old slot (attaching table.old out.old rec.old atr.now)).out }
    ensures rec_after { rec.new ≡ told rec.old (answer table.old slot (attaching table.old out.old rec.old atr.now)) }
{
    rack::rack_attach(table, slot, atr, out, rec)
}

// Command: its first I-block goes out.
#[unsafe(no_mangle)]
pub extern "C" fn rack_command(
    table: &mut [u8],
    slot: u64,
    bytes: &[u8],
    out: &mut [u8],
    rec: &mut [u8],
) -> u64
    ensures value { result ≡ (answer table.old slot (commanding table.old out.old rec.old bytes.now)).number }
    ensures table_after { table.new ≡ table_after table.old slot (commanding table.old out.old rec.old bytes.now) }
    ensures out_after { out.new ≡ splice out.old 0 (answer table.old slot (commanding table.old out.old rec.old bytes.now)).out }
    ensures rec_after { rec.new ≡ told rec.old (answer table.old slot (commanding table.old out.old rec.old bytes.now)) }
{
    rack::rack_command(table, slot, bytes, out, rec)
}

// Event: what the card sent (kind 0), a parity fault (1), or silence (2).
#[unsafe(no_mangle)]
pub extern "C" fn rack_event(
    table: &mut [u8],
    slot: u64,
    kind: u64,
    bytes: &[u8],
    out: &mut [u8],
    rec: &mut [u8],
) -> u64
    ensures value { result ≡ (answer table.old slot (hearing table.old out.old rec.old kind bytes.now)).number }
    ensures table_after { table.new ≡ table_after table.old slot (hearing table.old out.old rec.old kind bytes.now) }
    ensures out_after { out.new ≡ splice out.old 0 (answer table.old slot (hearing table.old out.old rec.old kind bytes.now)).out }
    ensures rec_after { rec.new ≡ told rec.old (answer table.old slot (hearing table.old out.old rec.old kind bytes.now)) }
{
    rack::rack_event(table, slot, kind, bytes, out, rec)
}

// Collect: the response of a slot that is done.
#[unsafe(no_mangle)]
pub extern "C" fn rack_collect(table: &mut [u8], slot: u64, out: &mut [u8], rec: &mut [u8]) -> u64
    ensures value { result ≡ (answer table.old slot (collecting table.old out.old rec.old)).number }
    ensures table_after { table.new ≡ table_after table.old slot (collecting table.old out.old rec.old) }
    ensures out_after { out.new ≡ splice out.old 0 (answer table.old slot (collecting table.old out.old rec.old)).out }
    ensures rec_after { rec.new ≡ told rec.old (answer table.old slot (collecting table.old out.old rec.old)) }
{
    rack::rack_collect(table, slot, out, rec)
}

// Remove: the slot is empty.
#[unsafe(no_mangle)]
pub extern "C" fn rack_remove(table: &mut [u8], slot: u64, rec: &mut [u8]) -> u64
    ensures value { result ≡ (answer table.old slot (removing table.old rec.old)).number }
    ensures table_after { table.new ≡ table_after table.old slot (removing table.old rec.old) }
    ensures rec_after { rec.new ≡ told rec.old (answer table.old slot (removing table.old rec.old)) }
{
    rack::rack_remove(table, slot, rec)
}
