// The block to send, built at the front of an output.
ghost use Rattle.std.specs.Prelude.{◌≡◌};
ghost use Rattle.slot.specs.Blocks.{sent_length, sent_out};

use slot::Send;

// Writes the block to send at the front of out and answers its length; where nothing is to be sent, or it does not fit,
// nothing is written and the answer is 0. Its INF is cut from the command's bytes, or is its byte.
#[tactic(auto, unfolding(slot::specs::Blocks::sent_length, slot::specs::Blocks::sent_out))]
pub fn send(out: &mut [u8], b: Send, command: &[u8]) -> usize
    ensures value { result ≡ sent_length out.old b command.now }
    ensures out_after { out.new ≡ sent_out out.old b command.now }
{
    match b {
        Send::Nothing => 0,
        Send::I { pcb, from, len } => builder::build(out, pcb, lent::part(command, from, len)),
        Send::R { pcb } => builder::build(out, pcb, &[]),
        Send::S { pcb, byte } => builder::build(out, pcb, &[byte]),
    }
}
