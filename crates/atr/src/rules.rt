// The rules that refuse an ATR by what its interface bytes say: 11, not for T=1 on our terms, and 12, a parameter.
ghost use Rattle.std.specs.Prelude.{◌≡◌, ◌≤◌, ◌^◌};
ghost use Rattle.atr.specs.Rules.{td1_wrong, td2_wrong, ta2_wrong, not_t1, n_plus1, speed_refused, size_refused, wait_refused, check_refused, parameter_refused};

use crate::walk::{Interface, byte};

// TD1 absent or low nibble not 1.
fn is_td1_wrong(td1: u16) -> bool
    ensures { result ≡ td1_wrong td1 }
{
    byte(td1).is_none_or(|td1| td1 % 16 != 1)
}

// TD2 present with low nibble not 1.
fn is_td2_wrong(td2: u16) -> bool
    ensures { result ≡ td2_wrong td2 }
{
    byte(td2).is_some_and(|td2| td2 % 16 != 1)
}

// TA2 present with b5 = 1 or low nibble not 1.
fn is_ta2_wrong(ta2: u16) -> bool
    ensures { result ≡ ta2_wrong ta2 }
{
    byte(ta2).is_some_and(|ta2| ta2 / 16 % 2 == 1 || ta2 % 16 != 1)
}

// 11.
#[tactic(auto, unfolding(crate::specs::Rules::not_t1))]
pub(crate) fn is_not_t1(a: Interface) -> bool
    ensures { result ≡ not_t1 a }
{
    is_td1_wrong(a.td1) || is_td2_wrong(a.td2) || is_ta2_wrong(a.ta2)
}

// N + 1: N is TC1, absent 0, and -1 for FF.
#[tactic(auto, unfolding(crate::specs::Rules::n_plus1))]
pub(crate) fn n_plus_1(tc1: u16) -> u16
    ensures value { result ≡ n_plus1 tc1 }
    ensures upper_bound { result ≤ 256 }
{
    match byte(tc1) {
        None => 1,
        Some(0xFF) => 0,
        Some(n) => u16::from(n) + 1,
    }
}

// 2 to a nibble.
pub(crate) fn power(k: u16) -> u32
    requires { k ≤ 15 }
    ensures value { result ≡ 2 ^ k }
    ensures upper_bound { result ≤ 32768 }
{
    1u32 << k
}

// TA1 and TA2 both present and TA1 not 11 to 13.
#[tactic(auto, unfolding(crate::specs::Rules::speed_refused))]
fn is_speed_refused(ta1: u16, ta2: u16) -> bool
    ensures { result ≡ speed_refused ta1 ta2 }
{
    byte(ta2).is_some() && byte(ta1).is_some_and(|ta1| !(0x11..=0x13).contains(&ta1))
}

// TA3 in 00 to 0F, or FF.
#[tactic(auto, unfolding(crate::specs::Rules::size_refused))]
fn is_size_refused(ta3: u16) -> bool
    ensures { result ≡ size_refused ta3 }
{
    matches!(byte(ta3), Some(0x00..=0x0F | 0xFF))
}

// TB3 absent; BWI above 4; CWI above 5; 2^CWI below N + 1.
#[tactic(auto, unfolding(crate::specs::Rules::wait_refused))]
fn is_wait_refused(tb3: u16, tc1: u16) -> bool
    ensures { result ≡ wait_refused tb3 tc1 }
{
    byte(tb3).is_none_or(|tb3| {
        let bwi = tb3 / 16;
        let cwi = tb3 % 16;
        4 < bwi || 5 < cwi || power(u16::from(cwi)) < u32::from(n_plus_1(tc1))
    })
}

// TC3 present and not 00.
#[tactic(auto, unfolding(crate::specs::Rules::check_refused))]
fn is_check_refused(tc3: u16) -> bool
    ensures { result ≡ check_refused tc3 }
{
    byte(tc3).is_some_and(|tc3| tc3 != 0x00)
}

// 12.
#[tactic(auto, unfolding(crate::specs::Rules::parameter_refused))]
pub(crate) fn is_parameter_refused(a: Interface) -> bool
    ensures { result ≡ parameter_refused a }
{
    is_speed_refused(a.ta1, a.ta2)
        || is_size_refused(a.ta3)
        || is_wait_refused(a.tb3, a.tc1)
        || is_check_refused(a.tc3)
}
