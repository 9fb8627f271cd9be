// Long runs on the pool, each folded into a few figures: appends and releases mixed, regions with one byte damaged, and
// calls on bytes that are no sound region.
ghost use Rattle.std.specs.Prelude.{◌≤◌, ◌<◌};

use super::figure::Figure;
use super::print::Hex;
use numbers::Number;
use std::io;

// The number after x in a row that looks mixed.
fn after(x: u16) -> u16 {
    x.wrapping_mul(1103).wrapping_add(12345)
}

// Releases or appends for holder i, by six bits of the number x: whether a piece was taken.
fn takes(r: &mut [u8], i: usize, x: u16) -> bool {
    if x / 256 % 64 == 0 {
        pool::release(r, i);
        false
    } else {
        super::cells::append(r, i, (x / 16 % 256) as u8, (x % 251) as u8)
    }
}

// What a figure counts for a sound region.
pub(crate) fn three_if_sound(r: &[u8]) -> usize
    ensures { result ≤ 3 }
{
    if sound::is_sound(r) { 3 } else { 0 }
}

// One call: what it answers, whether the region is sound, and what then is held and free.
fn call(r: &mut [u8], x: u16) -> usize
    ensures { result < 1000000 }
{
    let i = usize::from(x / 16 % 9);
    let answer = if takes(r, i, x) { 1 } else { 2 };
    answer
        + three_if_sound(r)
        + usize::from(region::held(r, i)) * 8
        + usize::from(region::free(r)) * 2048
}

// 3000 calls.
fn calls(r: &mut [u8]) -> Figure {
    let mut x = 1;
    let mut figure = Figure::new();
    for _ in 0..3000 {
        x = after(x);
        figure = figure.and(call(r, x));
    }
    figure
}

// Holder i's response, copied into a long output.
fn holder(rt: &impl Print, r: &[u8], i: usize) -> io::Result<()> {
    let mut out = [170u8; 24400];
    response::copy_out(r, i, &mut out);
    print!(rt;
        "holder {i}: length {} response {}",
        response::response_length(r, i),
        Figure::of(&out)
    )?;
    super::cells::holding(rt, r, i)
}

// Calls, and then what each holder has, and the number behind the last.
fn made(rt: &impl Print, r: &mut [u8]) -> io::Result<()> {
    let answers = calls(r);
    println!(rt; "answers {answers} bytes {}", Figure::of(r))?;
    for i in 0..9 {
        holder(rt, r, i)?;
    }
    Ok(())
}

pub(crate) fn mixed(rt: &impl Print, r: &mut [u8]) -> io::Result<()> {
    println!(rt; "mixed")?;
    super::cells::opens(
        rt,
        r,
        &[4, 12, 20, 0, 10, 10, 10, 10],
        &[10, 40, 96, 3, 10, 12, 50, 96],
    )?;
    made(rt, r)
}

// Whether the region is sound with byte a changed; it is changed back.
fn survives<F: Fn(u8) -> u8>(r: &mut [u8], a: usize, change: &F) -> bool
    requires { F.IsAlwaysCallable change.now }
{
    let b = u8::get(r, a);
    change(b).put(r, a);
    let yes = sound::is_sound(r);
    b.put(r, a);
    yes
}

// Each head byte in turn: a figure for the places where the region stays sound.
fn changed<F: Fn(u8) -> u8>(
    rt: &impl Print,
    r: &mut [u8],
    how: &str,
    v: u8,
    change: F,
) -> io::Result<()>
    requires { F.IsAlwaysCallable change }
{
    let mut figure = Figure::new();
    for a in 0..1080 {
        if survives(r, a, &change) {
            figure = figure.and(a);
        }
    }
    println!(rt; "{how} {v:02x}: sound at {figure}")
}

pub(crate) fn damage(rt: &impl Print, r: &mut [u8]) -> io::Result<()> {
    for v in [1, 2, 128, 255] {
        changed(rt, r, "changed by", v, |b| b ^ v)?;
    }
    for v in [0, 255] {
        changed(rt, r, "set to", v, |_| v)?;
    }
    Ok(())
}

// Bytes by the numbers after x.
fn scatter(s: &mut [u8], x: u16) {
    let mut x = x;
    for b in s.iter_mut() {
        x = after(x);
        *b = x.to_be_bytes()[0];
    }
}

// The same calls on bytes that are no sound region.
pub(crate) fn unsound(rt: &impl Print, r: &mut [u8]) -> io::Result<()> {
    println!(rt; "unsound")?;
    scatter(r, 1);
    made(rt, r)?;
    scatter(r, 77);
    made(rt, r)
}

// A region of another length, and its last bytes.
fn length(rt: &impl Print, s: &mut [u8]) -> io::Result<()> {
    super::cells::opens(rt, s, &[0; 8], &[0; 8])?;
    println!(rt; "{}", Hex(lent::part(s, 25460, 10)))
}

// Regions of one byte too few and of some too many.
pub(crate) fn lengths(rt: &impl Print) -> io::Result<()> {
    println!(rt; "lengths")?;
    length(rt, &mut [170; 25463])?;
    length(rt, &mut [170; 25470])
}
