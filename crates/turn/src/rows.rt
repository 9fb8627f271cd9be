// What is received while busy, row by row. An I-block that is due is another crate's: see `taking`.
ghost use Rattle.std.specs.Prelude.{◌≡◌};
ghost use Rattle.turn.specs.Rows.{on_r, on_request, while_busy};

use crate::safe::SafeTalk;
use crate::sending::{EDC_FAULT, OTHER_FAULT};
use block::Event;
use greeting::Ending;
use slot::{Last, Line, Next, Send, Talk, Turn};

impl SafeTalk {
    // An R-block, by its number alone: the standing block again, or the next I-block; any other is invalid.
    #[tactic(auto, unfolding(crate::specs::Rows::on_r))]
    fn on_r(self, number: u8) -> Next
        ensures { result ≡ on_r self.talk number }
    {
        let Talk {
            line,
            cut,
            acked,
            ..
        } = self.talk;
        let standing = if acked { 1 - line.s } else { line.s };
        if number == standing {
            self.say_again()
        } else if !acked && cut.has_more() {
            self.send_next()
        } else {
            self.answer_invalid(OTHER_FAULT)
        }
    }

    // A request: it is counted, IFSC is set, and pcb and byte answer it; the 256th ends the session.
    #[tactic(auto, unfolding(crate::specs::Rows::on_request))]
    fn on_request(self, ifsc: u8, pcb: u8, byte: u8, wait: u32) -> Next
        ensures { result ≡ on_request self.talk ifsc pcb byte wait }
    {
        let Talk { line, turn, .. } = self.talk;
        if turn.requests < 255 {
            let counted = SafeTalk {
                talk: Talk {
                    line: Line { ifsc, ..line },
                    turn: Turn {
                        requests: turn.requests + 1,
                        ..turn
                    },
                    ..self.talk
                },
            };
            counted.send_new(Last::S { pcb, byte }, Send::S { pcb, byte }, wait)
        } else {
            greeting::end(Ending::Requests as u8, turn.sent)
        }
    }

    // An event while busy that takes no cell. A card asks for a wait of so many times BWT.
    #[tactic(auto, unfolding(crate::specs::Rows::while_busy))]
    pub(crate) fn busy(self, e: Event) -> Next
        ensures { result ≡ while_busy self.talk e }
    {
        let Line { ifsc, bwt, .. } = self.talk.line;
        match e {
            Event::R { number } => self.on_r(number),
            Event::IfsRequest { size } => self.on_request(size, 0xE1, size, bwt),
            Event::Wtx { times } => self.on_request(ifsc, 0xE3, times, u32::from(times) * bwt),
            Event::Abort => greeting::end(Ending::Abort as u8, self.talk.turn.sent),
            Event::Edc => self.answer_invalid(EDC_FAULT),
            Event::I { .. } | Event::IfsResponse { .. } | Event::Other => {
                self.answer_invalid(OTHER_FAULT)
            }
        }
    }
}
