// Why a call is refused.
ghost use Rattle.std.specs.Prelude.{◌≡◌};
ghost use Rattle.atr.specs.Answer.{refusal_number};
ghost use Rattle.answer.specs.Refusal.{refusal_no, refusal_of_atr};

// By the number that C is given, 1 to 12: the table isn't sound, the shares or ceilings, no such slot, the slot's state, too
// few bytes lent, the kind of event, the form of a command; then what the ATR reader refuses, named here again so that the
// numbers are one list.
#[derive(Clone, Copy, Debug, PartialEq, Eq)]
pub enum Refusal {
    Table = 1,
    Limits = 2,
    Slot = 3,
    State = 4,
    Lent = 5,
    Kind = 6,
    Form = 7,
    Start = 8,
    Length = 9,
    Check = 10,
    Protocol = 11,
    Parameter = 12,
}

impl From<Refusal> for u8 {
    ghost from_gives = { λ refusal number. number ≡ refusal_no refusal };

    fn from(refusal: Refusal) -> u8 {
        refusal as u8
    }
}

impl From<atr::Refusal> for Refusal {
    ghost from_gives = { λ of_atr refusal. (refusal ≡ refusal_of_atr of_atr) × (refusal_no refusal ≡ refusal_number of_atr) };

    fn from(of_atr: atr::Refusal) -> Refusal {
        match of_atr {
            atr::Refusal::Start => Refusal::Start,
            atr::Refusal::Length => Refusal::Length,
            atr::Refusal::Check => Refusal::Check,
            atr::Refusal::Protocol => Refusal::Protocol,
            atr::Refusal::Parameter => Refusal::Parameter,
        }
    }
}
