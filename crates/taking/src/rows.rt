// An I-block while busy: whether it is due, and what is made of it once it is stored.
ghost use Rattle.std.specs.Prelude.{◌≡◌};
ghost use Rattle.taking.specs.Rows.{due, acknowledge, completed, accepted, took};

use crate::safe::SafeTalk;
use greeting::Ending;
use slot::{Last, Line, Next, Send, Slot, Talk, Turn};

impl SafeTalk {
    // Whether an I-block with this number is due: it is numbered r, and the standing block is an R or an I without more.
    #[tactic(auto, unfolding(crate::specs::Rows::due))]
    pub(crate) fn is_due(self, number: u8) -> bool
        ensures { result ≡ due self.talk number }
    {
        let t = self.talk;
        number == t.line.r && (t.acked || !t.cut.has_more())
    }

    // An I-block was taken: r flipped.
    fn take(self) -> SafeTalk
        ensures { result.talk ≡ took self.talk }
    {
        let line = self.talk.line;
        SafeTalk {
            talk: Talk {
                line: Line {
                    r: 1 - line.r,
                    ..line
                },
                ..self.talk
            },
        }
    }

    // More is to come: R(r) error-free, now standing.
    fn send_ack(self) -> Next
        ensures { result ≡ acknowledge self.talk }
    {
        let Talk { line, turn, .. } = self.talk;
        let sent = turn.sent + 1;
        let talk = Talk {
            acked: true,
            turn: Turn {
                last: Last::R { nibble: 0 },
                go: 1,
                sent,
                ..turn
            },
            ..self.talk
        };
        Next {
            slot: Slot::Busy { talk },
            send: Send::R {
                pcb: 0x80 + 0x10 * line.r,
            },
            sent,
            wait: line.bwt,
            ending: 0,
        }
    }

    // The response is whole, `length` bytes of it: done, or ended if it is one byte.
    fn complete(self, length: usize) -> Next
        ensures { result ≡ completed self.talk length }
    {
        let Talk { line, turn, .. } = self.talk;
        if length == 1 {
            greeting::end(Ending::OneByte as u8, turn.sent)
        } else {
            greeting::rest(Slot::Done { line }, turn.sent)
        }
    }

    // An I-block that is due was stored, and the response has `length` bytes with it.
    #[tactic(auto, unfolding(crate::specs::Rows::accepted))]
    pub(crate) fn accept(self, more: bool, length: usize) -> Next
        ensures { result ≡ accepted self.talk more length }
    {
        let taken = self.take();
        if more {
            taken.send_ack()
        } else {
            taken.complete(length)
        }
    }
}
