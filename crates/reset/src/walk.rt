// The walk over an ATR's bytes: the groups that T0 and each TDi announce, what is read of them, and where they end.
ghost use Rattle.std.specs.Prelude.{◌≡◌, ◌+◌, ◌≤◌, length};
ghost use Rattle.atr.specs.Walk.{t0, announced, field_at, walk_from, behind, interface_of, end_of};

use atr::walk::{ABSENT, End, Group, Interface};
use numbers::Number;

// The byte at p, if the bit that announces it is 1 and the bytes reach that far; else ABSENT and no None, since `field_at`
// says 256.
#[tactic(auto, unfolding(atr::specs::Walk::field_at))]
fn field(s: &[u8], p: usize, bit: usize) -> u16
    ensures value { result ≡ field_at s.now p bit }
    ensures upper_bound { result ≤ 256 }
{
    match s.get(p) {
        Some(&x) if bit == 1 => u16::from(x),
        _ => ABSENT,
    }
}

// A place in the walk over the bytes s: the next group begins at `at`, and `td`, which is T0 or a TDi, announces it.
#[derive(Drop)]
struct Walk<'a> {
    s: &'a [u8],
    at: usize,
    td: u16,
}

impl<'a> Walk<'a> {
    fn new(s: &'a [u8]) -> Walk<'a>
        ensures s_same { result.s.now ≡ s.now }
        ensures at_start { result.at ≡ 2 }
        ensures td_start { result.td ≡ t0 s.now }
        ensures td_bound { result.td ≤ 256 }
    {
        Walk {
            s,
            at: 2,
            td: u16::from(u8::get(s, 1)),
        }
    }

    // The next group; one of which nothing is there, behind the last. The bound is far beyond any ATR, and lets the sums fit.
    fn group(&mut self) -> Group
        requires { self.old.at ≤ 2000 }
        ensures value { result ≡ behind 0 (walk_from self.old.s.now self.old.at self.old.td).groups }
        ensures td_bound { result.td ≤ 256 }
        ensures s_after { self.new.s.now ≡ self.old.s.now }
        ensures at_bound { self.new.at ≤ self.old.at + 4 }
        ensures at_after { self.new.at ≡ self.old.at + length (announced self.old.td) }
        ensures td_after { self.new.td ≡ result.td }
    {
        let a = usize::from(self.td / 16 % 2);
        let b = usize::from(self.td / 32 % 2);
        let c = usize::from(self.td / 64 % 2);
        let d = usize::from(self.td / 128 % 2);
        let group = Group {
            ta: field(self.s, self.at, a),
            tb: field(self.s, self.at + a, b),
            tc: field(self.s, self.at + a + b, c),
            td: field(self.s, self.at + a + b + c, d),
        };
        self.at += a + b + c + d;
        self.td = group.td;
        group
    }
}

// The interface bytes that are read, of the first three groups.
pub(crate) fn interface_bytes(s: &[u8]) -> Interface
    ensures { result ≡ interface_of s.now }
{
    let mut walk = Walk::new(s);
    let g1 = walk.group();
    let g2 = walk.group();
    let g3 = walk.group();
    Interface {
        ta1: g1.ta,
        tc1: g1.tc,
        td1: g1.td,
        ta2: g2.ta,
        td2: g2.td,
        ta3: g3.ta,
        tb3: g3.tb,
        tc3: g3.tc,
    }
}

// Walks group by group to the end: each TD that is there moves on by a byte at least. A `while`, since no index is counted.
pub(crate) fn to_end(s: &[u8]) -> End
    requires { length s.now ≤ 1000 }
    ensures value { result ≡ end_of s.now }
    ensures at_bound { result.at ≤ 2000 }
{
    let mut walk = Walk::new(s);
    let mut tck = false;
    while walk.td < ABSENT {
        let g = walk.group();
        tck |= g.td % 16 != 0;
    }
    End { at: walk.at, tck }
}
