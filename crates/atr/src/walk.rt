// What is read of an ATR's interface bytes. The walk over the bytes is in specs/Walk, and its code in the crate `reset`.
ghost use Rattle.std.specs.Prelude.{◌≡◌, ◌<◌, ◌↔◌, IsSome, IfSome};

// An interface byte that is not there; no byte is 256.
pub const ABSENT: u16 = 256;

// The byte that a field of `Interface` has, if it is there.
pub(crate) fn byte(field: u16) -> Option<u8>
    ensures there { IsSome result ↔ (field < 256) }
    ensures value { IfSome result (λ b. b ≡ field) }
{
    u8::try_from(field).ok()
}

// TAi, TBi, TCi and TDi, each a byte or ABSENT, as `field_at` of specs/Walk says.
#[derive(Clone, Copy)]
pub struct Group {
    pub ta: u16,
    pub tb: u16,
    pub tc: u16,
    pub td: u16,
}

// The interface bytes that are read. A field is a u16, and no Option of a byte: `on_terms` has an answer for every number.
#[derive(Clone, Copy)]
pub struct Interface {
    pub ta1: u16,
    pub tc1: u16,
    pub td1: u16,
    pub ta2: u16,
    pub td2: u16,
    pub ta3: u16,
    pub tb3: u16,
    pub tc3: u16,
}

// Where the groups end, and whether TCK is there.
#[derive(Clone, Copy)]
pub struct End {
    pub at: usize,
    pub tck: bool,
}
