// The grant rule on numbers.
ghost use Rattle.std.specs.Prelude.{◌≡◌, ◌-◌, ◌<◌};
ghost use Rattle.shares.specs.Pool as rule;

// Whether a holder with `held` cells gets one more, where `free` cells are free and the other holders together lack
// `lacking` to their shares.
#[tactic(auto, unfolding(crate::specs::Pool::given))]
pub fn given(held: u8, share: u8, ceiling: u8, lacking: u16, free: u8) -> bool
    ensures { result ≡ rule.given held share ceiling lacking free }
{
    held < share || held < ceiling && lacking < u16::from(free)
}

// What a holder lacks: share minus held where that is positive.
pub fn lack(share: u8, held: u8) -> u16
    ensures { (result ≡ share - held) × (result < 256) }
{
    u16::from(share.saturating_sub(held))
}
