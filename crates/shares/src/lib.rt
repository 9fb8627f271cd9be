// The shares: who gets a cell. The rule on numbers is code; what follows from it for holders that run any protocol over
// one pool is in specs/ (Pool, Rack, Demand) and proved in proofs/. No bytes and no protocol are in sight.
#![tactic(auto)]

mod grant;

pub use grant::{given, lack};
