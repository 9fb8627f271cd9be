// The states of a slot, each a number in its entry.
ghost use Rattle.std.specs.Prelude.{◌≡◌};
ghost use Rattle.slot.specs.View.{slot_no};
ghost use Rattle.entry.specs.State.{state_number, state_of, decoded, Decodes};

use slot::Slot;

#[derive(Clone, Copy, Debug, PartialEq, Eq)]
pub enum State {
    Empty = 0,
    Greeting = 1,
    Ready = 2,
    Busy = 3,
    Done = 4,
    Ended = 5,
}

// A number that no state has.
#[derive(Clone, Copy, Debug, PartialEq, Eq)]
pub struct UnknownState(pub u8);

impl TryFrom<u8> for State {
    type Error = UnknownState;

    ghost try_from_gives = { λ number result. (result ≡ decoded number) × Decodes number result };

    fn try_from(number: u8) -> Result<Self, UnknownState> {
        match number {
            0 => Ok(State::Empty),
            1 => Ok(State::Greeting),
            2 => Ok(State::Ready),
            3 => Ok(State::Busy),
            4 => Ok(State::Done),
            5 => Ok(State::Ended),
            _ => Err(UnknownState(number)),
        }
    }
}

impl From<State> for u8 {
    ghost from_gives = { λ state number. number ≡ state_number state };

    fn from(state: State) -> u8 {
        state as u8
    }
}

// The state of a slot.
impl From<Slot> for State {
    ghost from_gives = { λ slot state. (state ≡ state_of slot) × (state_number state ≡ slot_no slot) };

    fn from(slot: Slot) -> State {
        match slot {
            Slot::Empty => State::Empty,
            Slot::Greeting { .. } => State::Greeting,
            Slot::Ready { .. } => State::Ready,
            Slot::Busy { .. } => State::Busy,
            Slot::Done { .. } => State::Done,
            Slot::Ended => State::Ended,
        }
    }
}
