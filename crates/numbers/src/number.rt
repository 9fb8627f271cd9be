// Numbers of one, two and four bytes at a place, high byte first. One that does not lie within t reads as 0,
// and is not written.
ghost use Rattle.std.specs.Prelude.{◌≡◌, ◌<◌, ℕ, List, [], ◌∷◌, get_or};
ghost use Rattle.lent.specs.Place.{within, splice};
ghost use Rattle.lent.specs.Number.{bytes_of, number_at};
ghost use Rattle.lent.specs.Laws.{NumberLaws};
ghost use Rattle.lent.proofs.WidthLaws.{byte_laws, wide_laws};

// A number that stands as so many bytes.
pub trait Number: Copy {
    ghost width: { ℕ };

    // as a number of any width
    ghost value: { Self → ℕ };

    // what is read at a place
    ghost number: { List ℕ → ℕ → Self };

    // what is written
    ghost bytes: { Self → List ℕ };

    // The number at a.
    fn get(t: &[u8], a: usize) -> Self
        ensures { result ≡ number t.now a };

    // Writes it at a; answers whether it lies within t.
    fn put(self, t: &mut [u8], a: usize) -> bool
        ensures value { result ≡ within t.old a width }
        ensures t_after { t.new ≡ splice t.old a (bytes self) };

    // What was written is read.
    ghost laws: { NumberLaws width value number bytes };
}

impl Number for u8 {
    ghost width = { 1 };

    ghost value = { λ v. v };

    ghost number = { λ t a. get_or t a 0 };

    ghost bytes = { λ v. v ∷ [] };

    ghost laws = { byte_laws };

    fn get(t: &[u8], a: usize) -> u8 {
        t.get(a).copied().unwrap_or(0)
    }

    fn put(self, t: &mut [u8], a: usize) -> bool {
        lent::put(t, a, &[self])
    }
}

impl Number for u16 {
    ghost width = { 2 };

    ghost value = { λ v. v };

    ghost number = { λ t a. number_at t a 2 };

    ghost bytes = { bytes_of 2 };

    ghost laws = { wide_laws 2 };

    fn get(t: &[u8], a: usize) -> u16 {
        match lent::part(t, a, 2) {
            [high, low] => u16::from_be_bytes([*high, *low]),
            _ => 0,
        }
    }

    fn put(self, t: &mut [u8], a: usize) -> bool {
        let pair = self.to_be_bytes();
        lent::put(t, a, &pair)
    }
}

impl Number for u32 {
    ghost width = { 4 };

    ghost value = { λ v. v };

    ghost number = { λ t a. number_at t a 4 };

    ghost bytes = { bytes_of 4 };

    ghost laws = { wide_laws 4 };

    fn get(t: &[u8], a: usize) -> u32 {
        match lent::part(t, a, 4) {
            [b3, b2, b1, b0] => u32::from_be_bytes([*b3, *b2, *b1, *b0]),
            _ => 0,
        }
    }

    fn put(self, t: &mut [u8], a: usize) -> bool {
        let four = self.to_be_bytes();
        lent::put(t, a, &four)
    }
}

// A byte as a wider number, as From gives it too.
pub fn wide(x: u8) -> usize
    ensures { (result ≡ x) × (result < 256) }
{
    usize::from(x)
}
