// The form of a command.
ghost use Rattle.std.specs.Prelude.{◌≡◌};
ghost use Rattle.session.specs.Refusal.{good_form};

use numbers::Number;

// 4 bytes; or 5; or 5 + L or 6 + L bytes with L, the fifth byte, from 1 to 255.
#[tactic(auto, unfolding(session::specs::Refusal::good_form))]
pub fn is_command(bytes: &[u8]) -> bool
    ensures { result ≡ good_form bytes.now }
{
    let n = bytes.len();
    let l = numbers::wide(u8::get(bytes, 4));
    n == 4 || n == 5 || (l >= 1 && (n == 5 + l || n == 6 + l))
}
