// Blocks sent, goes, and what is sent for an invalid event.
ghost use Rattle.std.specs.Prelude.{◌≡◌, ◌≤◌};
ghost use Rattle.greeting.specs.Sending.{sent_at, goes_out, newly};
ghost use Rattle.turn.specs.Sending.{again, in_place, invalid};

use crate::safe::SafeTalk;
use greeting::Ending;
use slot::{Last, Next, Send, Slot, Talk, Turn};

// The low nibble of an R-block: what it tells of the block before it. `Last::R` keeps it as the number that is sent, which
// `last_fits`, `in_place` and `invalid` read, so it is no enum.
pub(crate) const NO_FAULT: u8 = 0;

pub(crate) const EDC_FAULT: u8 = 1;

pub(crate) const OTHER_FAULT: u8 = 2;

impl SafeTalk {
    // A block goes out, the last sent from now on, at this go; the slot is busy.
    fn go_out(self, last: Last, go: u8, send: Send, wait: u32) -> Next
        ensures { result ≡ goes_out (sent_at self.talk last go) send wait }
    {
        let talk = self.talk;
        let turn = Turn {
            last,
            go,
            sent: talk.turn.sent + 1,
            ..talk.turn
        };
        Next {
            slot: Slot::Busy {
                talk: Talk { turn, ..talk },
            },
            send,
            sent: turn.sent,
            wait,
            ending: 0,
        }
    }

    // A new block, at go 1.
    pub(crate) fn send_new(self, last: Last, send: Send, wait: u32) -> Next
        ensures { result ≡ newly self.talk last send wait }
    {
        self.go_out(last, 1, send, wait)
    }

    // A repeat, or an R in its place: one go more. Where go 4 would be due, the session ends.
    pub(crate) fn send_again(self, last: Last, send: Send) -> Next
        ensures { result ≡ again self.talk last send }
    {
        let Talk { line, turn, .. } = self.talk;
        if turn.go < 3 {
            self.go_out(last, turn.go + 1, send, line.bwt)
        } else {
            greeting::end(Ending::Goes as u8, turn.sent)
        }
    }

    // An R(r) with this low nibble, in place of the last block.
    pub(crate) fn send_in_place(self, nibble: u8) -> Next
        requires { nibble ≤ 2 }
        ensures { result ≡ in_place self.talk nibble }
    {
        let pcb = 0x80 + 0x10 * self.talk.line.r + nibble;
        self.send_again(Last::R { nibble }, Send::R { pcb })
    }

    // An invalid event: the last R again as it was, otherwise R(r) with this low nibble.
    #[tactic(auto, unfolding(crate::specs::Sending::invalid))]
    pub(crate) fn answer_invalid(self, nibble: u8) -> Next
        requires { nibble ≤ 2 }
        ensures { result ≡ invalid self.talk nibble }
    {
        match self.talk.turn.last {
            Last::R { nibble: old } => self.send_in_place(old),
            Last::I | Last::S { .. } => self.send_in_place(nibble),
        }
    }
}
