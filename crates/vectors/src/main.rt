// Document 01's bytes to test with, a pool at work, a list of ATRs, and sessions, run: prints what the product reads, builds,
// keeps and answers. `stdout` beside src/ holds what it must print, worked out apart from the product (docs/VECTORS.md).
#![tactic(auto)]

ghost use Rattle.std.specs.Prelude.{◌≤◌, length, IfOk};

mod cards;
mod cells;
mod codec;
mod figure;
mod print;
mod runs;
mod script;
mod sessions;

use numbers::Number;
use std::io;
use std::io::Read;

fn pools(rt: &impl Print) -> io::Result<()> {
    let mut region = [170u8; 25464];
    cells::paper(rt, &mut region)?;
    runs::mixed(rt, &mut region)?;
    runs::damage(rt, &mut region)?;
    runs::unsound(rt, &mut region)?;
    runs::lengths(rt)
}

// Fills buf from standard input and answers how many bytes came: fewer only where the input ends.
fn read_full(rt: &impl Input, buf: &mut [u8]) -> io::Result<usize>
    ensures { IfOk result (λ n. n ≤ length buf.new) }
{
    let mut reader = rt.reader();
    let mut n = 0;
    // A read may bring fewer bytes than there is room for, so n grows by what came.
    while n < buf.len() {
        let more = reader.read(&mut buf[n..])?;
        if more == 0 {
            break;
        }
        n += more;
    }
    Ok(n)
}

// Standard input: the length of the list of ATRs in two bytes, high byte first, the list, and the script of the sessions.
// Of longer input the first 65,536 bytes are taken.
fn inputs(rt: &(impl Print + Input)) -> io::Result<()> {
    let mut space = [0u8; 65536];
    let n = read_full(rt, &mut space)?;
    let given = &space[..n];
    let size = usize::from(u16::get(given, 0));
    cards::listed(rt, lent::part(given, 2, size))?;
    script::played(rt, lent::part(given, size + 2, n))
}

fn main(rt: HostRuntime) -> io::Result<()> {
    cards::paper(&rt)?;
    codec::paper(&rt)?;
    codec::limits(&rt)?;
    codec::every_code(&rt)?;
    pools(&rt)?;
    inputs(&rt)
}
