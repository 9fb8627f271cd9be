// A command, and what is received while busy, on a slot by value. Numbers that are out of range are left, and nothing is done.
ghost use Rattle.std.specs.Prelude.{◌≡◌, ◌≤◌};
ghost use Rattle.turn.specs.Calls.{started, commanded, heard};
ghost use Rattle.slot.specs.Safe.{LineSafe};

use crate::safe::SafeTalk;
use block::Event;
use slot::{Cut, Last, Line, Next, Slot, Talk, Turn};

// The first I-block of a command of n bytes.
fn start(line: Line, n: usize) -> Next
    requires { LineSafe line × (n ≤ 261) }
    ensures { result ≡ started line n }
{
    let unsent = SafeTalk {
        talk: Talk {
            line,
            cut: Cut {
                whole: n,
                from: 0,
                len: 0,
            },
            acked: false,
            turn: Turn {
                last: Last::I,
                go: 0,
                requests: 0,
                sent: 0,
            },
        },
    };
    unsent.send_next()
}

// A command on a slot that is ready: its first I-block goes out, and the slot is busy. The bytes are kept by the caller,
// for the blocks to come.
#[tactic(auto, using(slot::proofs::SafeLaws::line_safe, session::proofs::FormLaws::form_fits), unfolding(crate::specs::Calls::commanded))]
pub fn command(line: Line, bytes: &[u8]) -> Next
    ensures { result ≡ commanded line bytes.now }
{
    if slot::is_line_fit(line) && wire::is_command(bytes) {
        start(line, bytes.len())
    } else {
        greeting::rest(Slot::Ready { line }, 0)
    }
}

// Any other event while busy.
#[tactic(auto, unfolding(crate::specs::Calls::heard))]
pub fn hear(t: Talk, e: Event) -> Next
    ensures { result ≡ heard t e }
{
    if slot::is_in_range(t) {
        SafeTalk { talk: t }.busy(e)
    } else {
        greeting::rest(Slot::Busy { talk: t }, 0)
    }
}
