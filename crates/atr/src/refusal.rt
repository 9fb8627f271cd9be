// Why an ATR is refused.
ghost use Rattle.std.specs.Prelude.{◌≡◌};
ghost use Rattle.atr.specs.Answer.{refusal_number};

// Its first byte, its length, TCK, a protocol that isn't T=1 on our terms, a parameter.
#[derive(Clone, Copy, Debug, PartialEq, Eq)]
pub enum Refusal {
    Start = 8,
    Length = 9,
    Check = 10,
    Protocol = 11,
    Parameter = 12,
}

// The paper's number.
impl From<Refusal> for u8 {
    ghost from_gives = { λ refusal number. number ≡ refusal_number refusal };

    fn from(refusal: Refusal) -> u8 {
        refusal as u8
    }
}
