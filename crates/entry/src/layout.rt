// Where the numbers of a slot stand in its entry, as in docs/LAYOUT.md. BWT, SENT, WHOLE and FROM are two bytes, high
// byte first; the others are one.
pub const STATE: usize = 0;

pub const IFSC: usize = 1;

pub const S: usize = 2;

pub const R: usize = 3;

pub const BWT: usize = 4;

pub const SENT: usize = 6;

pub const WHOLE: usize = 8;

pub const FROM: usize = 10;

pub const LEN: usize = 12;

pub const ACKED: usize = 13;

pub const LAST: usize = 14;
// the low nibble of an R, the PCB of an S
pub const VALUE: usize = 15;

pub const BYTE: usize = 16;

pub const GO: usize = 17;

pub const REQUESTS: usize = 18;
// bytes in an entry
pub const SIZE: usize = 19;
