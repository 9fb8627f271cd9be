// Building a block at the front of an output.
ghost use Rattle.std.specs.Prelude.{◌≡◌};
ghost use Rattle.block.specs.Builder.{built_length, built_out};

use super::check::put_check;
use block::{FRAME, INF_AT};

// Writes a block at the front of out and answers its length; the rest stays. Where INF is over 254 bytes or out is
// too short, nothing is written and the answer is 0, as `built_length` says.
#[tactic(auto, unfolding(block::specs::Builder::built_length, block::specs::Builder::built_out), using(block::proofs::BuilderLaws::written))]
pub fn build(out: &mut [u8], pcb: u8, inf: &[u8]) -> usize
    ensures value { result ≡ built_length out.old inf.now }
    ensures out_after { out.new ≡ built_out out.old pcb inf.now }
{
    let n = inf.len();
    if n > 254 || out.len() < FRAME + n {
        return 0;
    }
    // n is at most 254, so `as u8` loses nothing
    lent::put(out, 0, &[0x00, pcb, n as u8]);
    lent::put(out, INF_AT, inf);
    put_check(out, INF_AT + n);
    FRAME + n
}
