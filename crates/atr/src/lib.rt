// The ATR: the rules that its interface bytes are under, and what attach reports of it. Its bytes are walked and read by the
// crate `reset`; specs/ has all of it.
#![tactic(auto)]

mod rates;
mod reader;
mod refusal;
mod report;
mod rules;
pub mod walk;

pub use reader::on_terms;
pub use refusal::Refusal;
pub use report::Report;
