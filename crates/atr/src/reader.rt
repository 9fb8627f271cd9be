// What is answered by an ATR's interface bytes. Its bytes are read by the crate `reset`.
ghost use Rattle.std.specs.Prelude.{◌≡◌};
ghost use Rattle.atr.specs.Report.{report_of};
ghost use Rattle.atr.specs.Answer.{terms_of, answered};

use crate::refusal::Refusal;
use crate::report::{Report, reported};
use crate::rules::{is_not_t1, is_parameter_refused};
use crate::walk::Interface;

// 11 and 12, by the interface bytes; else what attach reports.
#[tactic(auto, unfolding(crate::specs::Answer::terms_of))]
pub fn on_terms(a: Interface, historical: u8) -> Result<Report, Refusal>
    ensures { result ≡ answered (terms_of a) (report_of a historical) }
{
    if is_not_t1(a) {
        return Err(Refusal::Protocol);
    }
    if is_parameter_refused(a) {
        return Err(Refusal::Parameter);
    }
    Ok(reported(a, historical))
}
