// The parts of a slot, and what a call gives.

ghost use Rattle.std.specs.Prelude.{◌≡◌};
ghost use Rattle.slot.specs.Blocks.{is_more};

// What runs on through later commands until remove: IFSC, BWT, s the number of the last I-block sent, r the number
// expected from the card.
#[derive(Clone, Copy, Debug, PartialEq, Eq)]
pub struct Line {
    pub ifsc: u8,
    pub bwt: u32,
    pub s: u8,
    pub r: u8,
}

// The last I-block sent: `len` bytes of a command of `whole` bytes, from the byte `from`. A repeat is cut there again,
// whatever IFSC has become.
#[derive(Clone, Copy, Debug, PartialEq, Eq)]
pub struct Cut {
    pub whole: usize,
    pub from: usize,
    pub len: usize,
}

impl Cut {
    // Whether more of the command is left after the last I-block.
    pub fn has_more(self) -> bool
        ensures { result ≡ is_more self }
    {
        self.len < self.whole.saturating_sub(self.from)
    }
}

// The last block sent: the last I-block, R(r) with this low nibble, or the answer to a request. The nibble is the number that
// is sent, which `last_fits` reads.
#[derive(Clone, Copy, Debug, PartialEq, Eq)]
pub enum Last {
    I,
    R { nibble: u8 },
    S { pcb: u8, byte: u8 },
}

// The last block sent and its go, the card's requests and the blocks sent since the command.
#[derive(Clone, Copy, Debug, PartialEq, Eq)]
pub struct Turn {
    pub last: Last,
    pub go: u8,
    pub requests: u32,
    pub sent: u32,
}

// A command under way. The standing block is the last I-block, or R(r) error-free if `acked`.
#[derive(Clone, Copy, Debug, PartialEq, Eq)]
pub struct Talk {
    pub line: Line,
    pub cut: Cut,
    pub acked: bool,
    pub turn: Turn,
}

#[derive(Clone, Copy, Debug, PartialEq, Eq)]
pub enum Slot {
    Empty,
    Greeting { line: Line, sent: u32 },
    Ready { line: Line },
    Busy { talk: Talk },
    Done { line: Line },
    Ended,
}

// A block to send: an I-block of `len` bytes of the command from the byte `from`, an R-block, or an S-block with its byte.
// `Nothing` is one of four cases on a par: `send` writes each, and an Option around three would be a second match there.
#[derive(Clone, Copy, Debug, PartialEq, Eq)]
pub enum Send {
    Nothing,
    I { pcb: u8, from: usize, len: usize },
    R { pcb: u8 },
    S { pcb: u8, byte: u8 },
}

// The next slot, what to send, and what the answer tells.
// `ending` is 0, or the number of why the session ended; `said_with` speaks of every number.
#[derive(Clone, Copy, Debug, PartialEq, Eq)]
pub struct Next {
    pub slot: Slot,
    pub send: Send,
    pub sent: u32,
    pub wait: u32,
    pub ending: u8,
}
