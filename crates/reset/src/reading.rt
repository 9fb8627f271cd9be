// Reading an ATR.
ghost use Rattle.std.specs.Prelude.{◌≡◌};
ghost use Rattle.atr.specs.Rules.{start_wrong, check_wrong};
ghost use Rattle.atr.specs.Answer.{number_of, values_of, number_in, report_in, answer_of};

use crate::walk::{interface_bytes, to_end};
use atr::{Refusal, Report};
use numbers::Number;

// 8: a first byte that is neither 3B nor 3F.
#[tactic(auto, unfolding(atr::specs::Rules::start_wrong))]
fn is_start_wrong(s: &[u8]) -> bool
    ensures { result ≡ start_wrong s.now }
{
    !matches!(s.first(), None | Some(0x3B | 0x3F))
}

// 10: TCK is there and the exclusive or of T0 to TCK isn't 0.
#[tactic(auto, using(lent::proofs::PlaceLaws::window_rest), unfolding(atr::specs::Rules::check_wrong))]
fn is_check_wrong(s: &[u8], tck: bool) -> bool
    ensures { result ≡ check_wrong s.now tck }
{
    tck && block::lrc(lent::part(s, 1, s.len())) != 0
}

// Reads an ATR: any bytes, of any number. The answer has the paper's number and the paper's values.
#[tactic(auto, unfolding(atr::specs::Answer::answer_of, atr::specs::Answer::number_of, atr::specs::Answer::values_of, atr::specs::Rules::length_wrong))]
pub fn read(s: &[u8]) -> Result<Report, Refusal>
    ensures value { result ≡ answer_of s.now }
    ensures number { number_in result ≡ number_of s.now }
    ensures report { report_in result ≡ values_of s.now }
{
    if is_start_wrong(s) {
        return Err(Refusal::Start);
    }
    if 33 < s.len() {
        return Err(Refusal::Length);
    }
    let historical = u8::get(s, 1) % 16;
    let end = to_end(s);
    let announced = end.at + usize::from(historical) + usize::from(end.tck);
    if s.len() != announced {
        return Err(Refusal::Length);
    }
    if is_check_wrong(s, end.tck) {
        return Err(Refusal::Check);
    }
    atr::on_terms(interface_bytes(s), historical)
}
