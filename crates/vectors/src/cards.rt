// ATRs: P1 to P6, and those of a list, each behind its length in one byte.
use super::print::{Asked, Hex};
use std::io;

// What an ATR is read as.
fn card(rt: &impl Print, atr: &[u8]) -> io::Result<()> {
    print!(rt; "ATR{}: ", Hex(atr))?;
    match reset::read(atr) {
        Ok(report) => println!(rt; "{}", Asked(report)),
        Err(refusal) => println!(rt; "refused {}", u8::from(refusal)),
    }
}

pub(crate) fn paper(rt: &impl Print) -> io::Result<()> {
    println!(rt; "P1 to P6")?;
    card(rt, b"\x3B\xE0\x00\x00\x81\x31\x20\x45\x35")?;
    card(rt, b"\x3B\xE0\x00\xFF\x81\x31\x20\x40\xCF")?;
    card(rt, b"\x3B\xE0\x00\x01\x81\x31\x20\x40\x31")?;
    card(rt, b"\x3B\xF0\x13\x00\x00\x91\x01\x31\xFE\x45\xF9")?;
    card(rt, b"")?;
    card(rt, b"\x3C")
}

// Each ATR of a list, the last cut off where the list ends. A `while`: what is left shrinks by what each is long.
pub(crate) fn listed(rt: &impl Print, list: &[u8]) -> io::Result<()> {
    println!(rt; "the list")?;
    let mut rest = list;
    while let Some((n, behind)) = rest.split_first() {
        let (atr, after) = behind.split_at(behind.len().min(usize::from(*n)));
        card(rt, atr)?;
        rest = after;
    }
    Ok(())
}
