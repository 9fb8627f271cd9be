// The calls on slot 0, whose cells are in a pool's region. What a call is refused for is told here, as the rack tells it.
use answer::Refusal;
use entry::State;
use slot::{Line, Next, Send, Slot};

// What a call answers that is not refused: the length of the response that it wrote to the output, and what comes next.
#[derive(Clone, Copy)]
pub(crate) struct Step {
    pub(crate) length: usize,
    pub(crate) next: Next,
}

// The first eight bytes, zeros where there are fewer.
fn eight(bytes: &[u8]) -> [u8; 8] {
    let mut eight = [0u8; 8];
    lent::put(&mut eight, 0, lent::part(bytes, 0, 8));
    eight
}

// A pool's region, lent so that it stands on the stack once, and slot 0.
#[derive(Drop)]
pub(crate) struct Seat<'a> {
    region: &'a mut [u8],
    slot: Slot,
}

impl<'a> Seat<'a> {
    pub(crate) fn new(region: &'a mut [u8]) -> Seat<'a> {
        Seat {
            region,
            slot: Slot::Empty,
        }
    }

    // The slot stays, and nothing goes out.
    pub(crate) fn still(&self) -> Step {
        let next = Next {
            slot: self.slot,
            send: Send::Nothing,
            sent: 0,
            wait: 0,
            ending: 0,
        };
        Step { length: 0, next }
    }

    // The slot goes on.
    fn moved(&mut self, length: usize, next: Next) -> Step {
        self.slot = next.slot;
        Step { length, next }
    }

    pub(crate) fn attach(&mut self, atr: &[u8]) -> Result<Step, Refusal> {
        let Slot::Empty = self.slot else {
            return Err(Refusal::State);
        };
        let report = reset::read(atr)?;
        Ok(self.moved(0, greeting::attach(report)))
    }

    pub(crate) fn command(&mut self, bytes: &[u8]) -> Result<Step, Refusal> {
        let Slot::Ready { line } = self.slot else {
            return Err(Refusal::State);
        };
        if wire::is_command(bytes) {
            Ok(self.moved(0, turn::command(line, bytes)))
        } else {
            Err(Refusal::Form)
        }
    }

    // The state comes before the kind, of which there are three; it is a number, since `terminal::event` takes any.
    pub(crate) fn event(&mut self, kind: u8, bytes: &[u8]) -> Result<Step, Refusal> {
        let next = match self.slot {
            Slot::Greeting { .. } | Slot::Busy { .. } if kind > 2 => return Err(Refusal::Kind),
            Slot::Greeting { line, sent } => terminal::greet(line, sent, u64::from(kind), bytes),
            Slot::Busy { talk } => terminal::event(self.region, 0, talk, u64::from(kind), bytes),
            _ => return Err(Refusal::State),
        };
        Ok(self.moved(0, next))
    }

    // Collects into all of the output: refused if it is too short, and the slot is still done.
    fn collected(&mut self, line: Line, out: &mut [u8]) -> Result<Step, Refusal> {
        let length = response::response_length(self.region, 0);
        let next = terminal::collect(self.region, 0, line, out);
        match next.slot {
            Slot::Done { .. } => Err(Refusal::Lent),
            _ => Ok(self.moved(length, next)),
        }
    }

    // Collects into the first n bytes of the output.
    pub(crate) fn collect(&mut self, n: usize, out: &mut [u8]) -> Result<Step, Refusal> {
        let Slot::Done { line } = self.slot else {
            return Err(Refusal::State);
        };
        if n <= out.len() {
            self.collected(line, &mut out[..n])
        } else {
            Err(Refusal::Lent)
        }
    }

    pub(crate) fn remove(&mut self) -> Result<Step, Refusal> {
        if let Slot::Empty = self.slot {
            return Err(Refusal::State);
        }
        let next = terminal::remove(self.region, 0);
        Ok(self.moved(0, next))
    }

    // Open, with eight shares and then eight ceilings.
    pub(crate) fn open(&mut self, limits: &[u8]) -> Result<Step, Refusal> {
        let shares = eight(limits);
        let ceilings = eight(lent::part(limits, 8, 8));
        if !pool::lay_out(self.region, &shares, &ceilings) {
            return Err(Refusal::Limits);
        }
        self.slot = Slot::Empty;
        Ok(self.still())
    }

    // Appends for another holder.
    pub(crate) fn append(&mut self, i: u8, piece: &[u8]) -> Step {
        pool::append(self.region, usize::from(i), piece);
        self.still()
    }

    // Releases another holder.
    pub(crate) fn release(&mut self, i: u8) -> Step {
        pool::release(self.region, usize::from(i));
        self.still()
    }

    // The number of a refusal or 0, what comes next, and what then is held, free and sound. usize has no From<u32>.
    pub(crate) fn numbers(&self, refusal: u8, next: Next, length: usize) -> [usize; 9] {
        [
            usize::from(refusal),
            usize::from(u8::from(State::from(next.slot))),
            usize::from(next.ending),
            next.sent as usize,
            length,
            next.wait as usize,
            usize::from(region::held(self.region, 0)),
            usize::from(region::free(self.region)),
            super::runs::three_if_sound(self.region),
        ]
    }
}
