// What a call gives that sends nothing: the slot as given, or the session's end.
ghost use Rattle.std.specs.Prelude.{◌≡◌};
ghost use Rattle.greeting.specs.Sending.{rests, ends};

use slot::{Next, Send, Slot};

// Nothing goes out.
pub fn rest(slot: Slot, sent: u32) -> Next
    ensures { result ≡ rests slot sent }
{
    Next {
        slot,
        send: Send::Nothing,
        sent,
        wait: 0,
        ending: 0,
    }
}

// Why a session ended, by the number that its answer gives: `as u8` tells it, with no function of its own.
#[derive(Clone, Copy, Debug, PartialEq, Eq)]
pub enum Ending {
    NoCell = 20,
    Goes = 21,
    Abort = 22,
    OneByte = 23,
    Requests = 24,
}

// The session ends. Any number is taken, since `ends` speaks of each; those that are passed are of an `Ending`.
pub fn end(ending: u8, sent: u32) -> Next
    ensures { result ≡ ends ending sent }
{
    Next {
        ending,
        ..rest(Slot::Ended, sent)
    }
}
