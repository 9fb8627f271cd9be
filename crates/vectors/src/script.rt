// Sessions played from a script. A line of it is four bytes and what a call is made with: which call, a number, and the
// length behind them, high byte first. Where the first byte has b8 set the call is folded and not printed.
use super::figure::Figure;
use super::print::Hex;
use super::sessions::{Seat, Step};
use answer::Refusal;
use numbers::Number;
use std::io;

// Which call; those with no name release too.
#[derive(Clone, Copy, PartialEq, Eq)]
enum Op {
    Attach,
    Command,
    Event,
    Collect,
    Remove,
    Open,
    Append,
    Release,
    Nameless,
}

impl From<u8> for Op {
    fn from(code: u8) -> Op {
        match code {
            1 => Op::Attach,
            2 => Op::Command,
            3 => Op::Event,
            4 => Op::Collect,
            5 => Op::Remove,
            6 => Op::Open,
            7 => Op::Append,
            8 => Op::Release,
            _ => Op::Nameless,
        }
    }
}

impl Op {
    // The name in eight letters.
    fn name(self) -> &'static str {
        match self {
            Op::Attach => "attach  ",
            Op::Command => "command ",
            Op::Event => "event   ",
            Op::Collect => "collect ",
            Op::Remove => "remove  ",
            Op::Open => "open    ",
            Op::Append => "append  ",
            Op::Release => "release ",
            Op::Nameless => "",
        }
    }
}

// A call, with a number and bytes; a quiet one is not printed.
#[derive(Clone, Copy)]
struct Call<'a> {
    op: Op,
    quiet: bool,
    number: u8,
    bytes: &'a [u8],
}

// What a script is played on: the slot with its pool, the command last taken, and the figure for the calls since the last
// name.
#[derive(Drop)]
struct Player<'a> {
    seat: Seat<'a>,
    kept: [u8; 261],
    figure: Figure,
}

impl<'a> Player<'a> {
    fn new(region: &'a mut [u8]) -> Player<'a> {
        Player {
            seat: Seat::new(region),
            kept: [0; 261],
            figure: Figure::new(),
        }
    }

    // What a call answers.
    fn answer(&mut self, call: Call, out: &mut [u8]) -> Result<Step, Refusal> {
        let bytes = call.bytes;
        match call.op {
            Op::Attach => self.seat.attach(bytes),
            Op::Command => self.seat.command(bytes),
            Op::Event => self.seat.event(call.number, bytes),
            Op::Collect => self.seat.collect(usize::from(u16::get(bytes, 0)), out),
            Op::Remove => self.seat.remove(),
            Op::Open => self.seat.open(bytes),
            Op::Append => Ok(self.seat.append(call.number, bytes)),
            Op::Release | Op::Nameless => Ok(self.seat.release(call.number)),
        }
    }

    // Makes a call with an output of bytes AA. The command that was not refused is kept, for the blocks to come, and a
    // block goes to the front of the output.
    fn play(&mut self, rt: &impl Print, call: Call) -> io::Result<()> {
        let mut out = [170u8; 600];
        let answer = self.answer(call, &mut out);
        if answer.is_ok() && call.op == Op::Command {
            lent::put(&mut self.kept, 0, call.bytes);
        }
        let (refusal, step) = match answer {
            Ok(step) => (0, step),
            Err(refusal) => (u8::from(refusal), self.seat.still()),
        };
        let next = step.next;
        let length = match wire::send(&mut out, next.send, &self.kept) {
            0 => step.length,
            n => n,
        };
        let numbers = self.seat.numbers(refusal, next, length);
        if !call.quiet {
            told(rt, call.op, &numbers, lent::part(&out, 0, length))?;
        }
        self.figure = folded(self.figure, &numbers).and(usize::from(Figure::of(&out)));
        Ok(())
    }

    // The figure of the run that ends, and the name of the next.
    fn name(&mut self, rt: &impl Print, name: &[u8]) -> io::Result<()> {
        println!(rt; "figure {}", self.figure)?;
        rt.write_all(name)?;
        self.figure = Figure::new();
        println!(rt)
    }
}

// Prints a call's name, numbers and output.
fn told(rt: &impl Print, op: Op, numbers: &[usize; 9], out: &[u8]) -> io::Result<()> {
    print!(rt; "{}", op.name())?;
    for n in numbers {
        print!(rt; " {n}")?;
    }
    println!(rt; ":{}", Hex(out))
}

// Folds numbers, each as two of 16 bits.
fn folded(figure: Figure, numbers: &[usize; 9]) -> Figure {
    numbers.iter().fold(
        figure,
        |figure, n| figure.and(n / 65536 % 65536).and(n % 65536),
    )
}

pub(crate) fn played(rt: &impl Print, script: &[u8]) -> io::Result<()> {
    println!(rt; "sessions")?;
    let mut region = [0xAA; 25464];
    let mut player = Player::new(&mut region);
    let mut rest = script;
    // The last line may end before its four bytes do: what is missing of them is 0. A first byte of 0 names a run, and is no op:
    // 128 is a call with no name.
    while !rest.is_empty() {
        let code = u8::get(rest, 0);
        let n = usize::from(u16::get(rest, 2));
        let bytes = lent::part(rest, 4, n);
        if code == 0 {
            player.name(rt, bytes)?;
        } else {
            player.play(
                rt,
                Call {
                    op: Op::from(code % 128),
                    quiet: code >= 128,
                    number: u8::get(rest, 1),
                    bytes,
                },
            )?;
        }
        rest = &rest[rest.len().min(n + 4)..];
    }
    Ok(())
}
