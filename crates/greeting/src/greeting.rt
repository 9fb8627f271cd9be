// Attach, and what is received while greeting.
ghost use Rattle.std.specs.Prelude.{◌≡◌};
ghost use Rattle.greeting.specs.Greeting.{greets, attached, while_greeting};

use crate::outcome::{Ending, end, rest};
use atr::Report;
use block::Event;
use slot::{Line, Next, Send, Slot};

// S(IFS request) with FE goes out, for the time `sent`.
fn send_greeting(line: Line, sent: u32) -> Next
    ensures { result ≡ greets line sent }
{
    Next {
        slot: Slot::Greeting { line, sent },
        send: Send::S {
            pcb: 0xC1,
            byte: 0xFE,
        },
        sent,
        wait: line.bwt,
        ending: 0,
    }
}

// Attach, of an ATR that was taken: S(IFS request) with FE goes out, and the slot is greeting.
pub fn attach(report: Report) -> Next
    ensures { result ≡ attached report }
{
    let line = Line {
        ifsc: report.ifsc,
        bwt: report.bwt,
        s: 1,
        r: 0,
    };
    send_greeting(line, 1)
}

// An event while greeting: E1 with FE makes the slot ready, C2 ends with 22, all else is invalid and S(IFS request) goes
// out again, three times in all.
#[tactic(auto, unfolding(crate::specs::Greeting::while_greeting))]
pub fn greet(line: Line, sent: u32, e: Event) -> Next
    ensures { result ≡ while_greeting line sent e }
{
    match e {
        Event::IfsResponse { size: 0xFE } => rest(Slot::Ready { line }, sent),
        Event::Abort => end(Ending::Abort as u8, sent),
        _ if sent < 3 => send_greeting(line, sent + 1),
        _ => end(Ending::Goes as u8, sent),
    }
}
