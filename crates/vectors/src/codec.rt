// The block codec: P7 to P10 as far as it goes, the limits of LEN and of the IFS byte, and every PCB.
use super::print::{Heard, Hex};
use block::Event;
use std::io;

// What goes out for a PCB and an INF.
fn sends(rt: &impl Print, pcb: u8, inf: &[u8]) -> io::Result<()> {
    let mut out = [0u8; 260];
    let n = builder::build(&mut out, pcb, inf);
    println!(rt; "sends{}", Hex(lent::part(&out, 0, n)))
}

// What an event is read as, and its INF. The kind is a number, since `block::read` takes any.
fn receives(rt: &impl Print, kind: u64, s: &[u8]) -> io::Result<()> {
    let e = block::read(kind, s);
    println!(rt; "receives{}: {}", Hex(block::inf(e, s)), Heard(e))
}

pub(crate) fn paper(rt: &impl Print) -> io::Result<()> {
    println!(rt; "P7")?;
    sends(rt, 0xC1, b"\xFE")?;
    receives(rt, 0, b"\x00\xE1\x01\xFE\x1E")?;
    println!(rt; "P8")?;
    sends(rt, 0x00, b"\x00\xA4\x04\x00")?;
    receives(rt, 0, b"\x00\x00\x02\x90\x00\x92")?;
    println!(rt; "P9")?;
    receives(rt, 1, b"\x00\x00\x02\x90\x00\x92")?;
    sends(rt, 0x81, b"")?;
    receives(rt, 2, b"")?;
    sends(rt, 0x82, b"")?;
    println!(rt; "P10")?;
    receives(rt, 0, b"\x00\xC3\x01\x03\xC1")?;
    sends(rt, 0xE3, b"\x03")
}

// An I-block of LEN zeros, its length and its LRC right: LEN is the exclusive or of it all.
fn long(rt: &impl Print, len: u8) -> io::Result<()> {
    let mut s = [0u8; 260];
    let n = usize::from(len);
    s[2] = len;
    s[n + 3] = len;
    println!(rt;
        "LEN {len:02x}: {}",
        Heard(block::read(0, lent::part(&s, 0, n + 4)))
    )
}

// How many bytes are built for an INF.
fn built(rt: &impl Print, inf: &[u8]) -> io::Result<()> {
    println!(rt; "built {}", builder::build(&mut [0; 260], 0x00, inf))
}

// A card's request for an IFS of one byte.
fn size(rt: &impl Print, v: u8) -> io::Result<()> {
    let mut s = [0u8; 5];
    builder::build(&mut s, 0xC1, &[v]);
    println!(rt; "IFS byte {v:02x}: {}", Heard(block::read(0, &s)))
}

// The limits of LEN, and of the IFS byte.
pub(crate) fn limits(rt: &impl Print) -> io::Result<()> {
    long(rt, 254)?;
    long(rt, 255)?;
    built(rt, &[0; 254])?;
    built(rt, &[0; 255])?;
    size(rt, 0x0F)?;
    size(rt, 0x10)?;
    size(rt, 0xFE)?;
    size(rt, 0xFF)
}

// What a block of a PCB and an INF is read as, where its LRC is right and where it is wrong.
fn read_as(pcb: u8, inf: &[u8], wrong: bool) -> Event {
    let mut s = [0u8; 6];
    let n = builder::build(&mut s, pcb, inf);
    if let Some(lrc) = s.get_mut(inf.len() + 3) {
        *lrc ^= u8::from(wrong);
    }
    block::read(0, lent::part(&s, 0, n))
}

// How many of the 256 PCBs are read as a kind.
fn count<F: Fn(Event) -> bool>(inf: &[u8], wrong: bool, is_kind: F) -> usize
    requires { F.IsAlwaysCallable is_kind }
{
    (0..=255u8)
        .filter(|pcb| is_kind(read_as(*pcb, inf, wrong)))
        .count()
}

// The counts of the eight kinds.
fn every_pcb(rt: &impl Print, inf: &[u8], wrong: bool) -> io::Result<()> {
    let lrc = if wrong { "wrong" } else { "right" };
    println!(rt;
        "LEN {}, LRC {lrc}: {} {} {} {} {} {} {} {}",
        inf.len(),
        count(inf, wrong, |e| matches!(e, Event::I { .. })),
        count(inf, wrong, |e| matches!(e, Event::R { .. })),
        count(inf, wrong, |e| matches!(e, Event::IfsRequest { .. })),
        count(inf, wrong, |e| matches!(e, Event::IfsResponse { .. })),
        count(inf, wrong, |e| matches!(e, Event::Abort)),
        count(inf, wrong, |e| matches!(e, Event::Wtx { .. })),
        count(inf, wrong, |e| matches!(e, Event::Edc)),
        count(inf, wrong, |e| matches!(e, Event::Other))
    )
}

pub(crate) fn every_code(rt: &impl Print) -> io::Result<()> {
    println!(rt; "every PCB as I, R, IFS request, IFS response, abort, WTX, EDC, other")?;
    let inf = [0x20; 2];
    for len in 0..=2 {
        every_pcb(rt, &inf[..len], false)?;
        every_pcb(rt, &inf[..len], true)?;
    }
    Ok(())
}
