// The pool on real bytes: P11 and P12, the sizes of a piece, and responses copied into outputs of several lengths.
use super::print::{Hex, yes_or_no};
use std::io;

// Appends n bytes that count up from v for holder i.
pub(crate) fn append(r: &mut [u8], i: usize, n: u8, v: u8) -> bool {
    let mut piece = [0u8; 256];
    for (j, b) in piece.iter_mut().enumerate() {
        *b = v.wrapping_add((j % 256) as u8);
    }
    pool::append(r, i, &piece[..usize::from(n)])
}

// Whether a pool opens with these limits.
pub(crate) fn opens(
    rt: &impl Print,
    r: &mut [u8],
    shares: &[u8; 8],
    ceilings: &[u8; 8],
) -> io::Result<()> {
    let opens = pool::lay_out(r, shares, ceilings);
    print!(rt; "shares{} ceilings{}", Hex(shares), Hex(ceilings))?;
    println!(rt;
        ": opens {}, sound {}",
        yes_or_no(opens),
        yes_or_no(sound::is_sound(r))
    )
}

// What holder i holds, what is free, and whether it would get a cell.
pub(crate) fn holding(rt: &impl Print, r: &[u8], i: usize) -> io::Result<()> {
    println!(rt;
        " held {} free {} next {}",
        region::held(r, i),
        region::free(r),
        yes_or_no(region::granted(r, i))
    )
}

// Holder i's response at the front of an output, all of which is printed.
fn copies(rt: &impl Print, r: &[u8], i: usize, out: &mut [u8]) -> io::Result<()> {
    let copied = response::copy_out(r, i, out);
    println!(rt;
        "response {}: copied {}{}",
        response::response_length(r, i),
        yes_or_no(copied),
        Hex(out)
    )
}

// A response of 351 bytes into an output that is too short, one that fits, and one that is longer.
fn outputs(rt: &impl Print, r: &[u8]) -> io::Result<()> {
    copies(rt, r, 0, &mut [0xAA; 350])?;
    copies(rt, r, 0, &mut [0xAA; 351])?;
    copies(rt, r, 0, &mut [0xAA; 360])?;
    copies(rt, r, 8, &mut [0xAA; 350])
}

// Whether a piece of n bytes is taken for holder i.
fn piece(rt: &impl Print, r: &mut [u8], i: usize, n: u8, v: u8) -> io::Result<()> {
    let taken = append(r, i, n, v);
    print!(rt; "piece of {n}: taken {}", yes_or_no(taken))?;
    holding(rt, r, i)
}

// The n-th piece of holder 0 has n bytes.
fn eleven(rt: &impl Print, r: &mut [u8]) -> io::Result<()> {
    println!(rt; "P11")?;
    opens(rt, r, &[10; 8], &[96, 10, 10, 10, 10, 10, 10, 10])?;
    for n in 1..=27 {
        piece(rt, r, 0, n, n)?;
    }
    outputs(rt, r)?;
    pool::release(r, 0);
    print!(rt; "released:")?;
    holding(rt, r, 0)
}

// P12, and the other limits from both sides.
fn twelve(rt: &impl Print, r: &mut [u8]) -> io::Result<()> {
    println!(rt; "P12")?;
    opens(rt, r, &[12; 8], &[96; 8])?;
    opens(rt, r, &[13, 12, 12, 12, 12, 12, 12, 12], &[96; 8])?;
    opens(
        rt,
        r,
        &[0, 0, 0, 0, 0, 0, 0, 96],
        &[0, 0, 0, 0, 0, 0, 0, 96],
    )?;
    opens(rt, r, &[0; 8], &[0, 0, 0, 0, 0, 0, 0, 97])?;
    opens(
        rt,
        r,
        &[1, 0, 0, 0, 0, 0, 0, 0],
        &[0, 96, 96, 96, 96, 96, 96, 96],
    )
}

// Pieces of 0, 1, 254 and 255 bytes for a holder below its share.
fn sizes(rt: &impl Print, r: &mut [u8]) -> io::Result<()> {
    println!(rt; "sizes")?;
    opens(rt, r, &[12; 8], &[12; 8])?;
    piece(rt, r, 7, 0, 1)?;
    piece(rt, r, 7, 1, 2)?;
    piece(rt, r, 7, 254, 3)?;
    piece(rt, r, 7, 255, 4)
}

pub(crate) fn paper(rt: &impl Print, r: &mut [u8]) -> io::Result<()> {
    eleven(rt, r)?;
    twelve(rt, r)?;
    sizes(rt, r)
}
