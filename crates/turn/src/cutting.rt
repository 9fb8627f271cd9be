// The command's I-blocks: where the last was cut, and where the next will be.
ghost use Rattle.std.specs.Prelude.{◌≡◌};
ghost use Rattle.turn.specs.Sending.{last_i, cut_next, send_next, say_again};

use crate::safe::SafeTalk;
use crate::sending::NO_FAULT;
use slot::{Cut, Last, Line, Next, Send, Talk};

impl SafeTalk {
    // The last I-block, as it was cut.
    fn last_i(self) -> Send
        ensures { result ≡ last_i self.talk }
    {
        let Talk { line, cut, .. } = self.talk;
        let more = if cut.has_more() { 0x20 } else { 0 };
        Send::I {
            pcb: 0x40 * line.s + more,
            from: cut.from,
            len: cut.len,
        }
    }

    // The next I-block is cut, and stands: the other number, and min(IFSC, what is left) bytes.
    fn cut_next(self) -> SafeTalk
        ensures { result.talk ≡ cut_next self.talk }
    {
        let Talk { line, cut, .. } = self.talk;
        let from = cut.from + cut.len;
        let len = usize::from(line.ifsc).min(cut.whole - from);
        SafeTalk {
            talk: Talk {
                line: Line {
                    s: 1 - line.s,
                    ..line
                },
                cut: Cut { from, len, ..cut },
                acked: false,
                ..self.talk
            },
        }
    }

    // The next I-block goes out.
    #[tactic(auto, unfolding(crate::specs::Sending::send_next))]
    pub(crate) fn send_next(self) -> Next
        ensures { result ≡ send_next self.talk }
    {
        let next = self.cut_next();
        next.send_new(Last::I, next.last_i(), next.talk.line.bwt)
    }

    // The standing block goes out again.
    #[tactic(auto, unfolding(crate::specs::Sending::say_again))]
    pub(crate) fn say_again(self) -> Next
        ensures { result ≡ say_again self.talk }
    {
        if self.talk.acked {
            self.send_in_place(NO_FAULT)
        } else {
            self.send_again(Last::I, self.last_i())
        }
    }
}
