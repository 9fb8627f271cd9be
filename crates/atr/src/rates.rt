// The F and D that TA1 offers, by its nibbles.
ghost use Rattle.std.specs.Prelude.{◌≡◌};
ghost use Rattle.atr.specs.Rates.{f_offered, d_offered};

use crate::walk::byte;

// By high nibble; a reserved code is 0.
const FS: [u16; 16] = [
    372, 372, 558, 744, 1116, 1488, 1860, 0, 0, 512, 768, 1024, 1536, 2048, 0, 0,
];

// By low nibble; a reserved code is 0.
const DS: [u8; 16] = [0, 1, 2, 4, 8, 16, 32, 64, 12, 20, 0, 0, 0, 0, 0, 0];

#[tactic(auto, unfolding(crate::specs::Rates::f_offered))]
pub(crate) fn f_offered(ta1: u16) -> u16
    ensures { result ≡ f_offered ta1 }
{
    byte(ta1).map_or(372, |ta1| FS[usize::from(ta1 / 16)])
}

#[tactic(auto, unfolding(crate::specs::Rates::d_offered))]
pub(crate) fn d_offered(ta1: u16) -> u8
    ensures { result ≡ d_offered ta1 }
{
    byte(ta1).map_or(1, |ta1| DS[usize::from(ta1 % 16)])
}
