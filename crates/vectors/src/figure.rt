// A figure for a run of numbers, of bytes for one: it comes out otherwise if one of them does.
ghost use Rattle.std.specs.Prelude.{◌<◌};

use std::fmt;

#[derive(Clone, Copy)]
pub(crate) struct Figure {
    value: usize,
    ghost bounded: { value < 65521 },
}

impl Figure {
    // The figure for no numbers.
    pub(crate) fn new() -> Figure {
        Figure { value: 0 }
    }

    // The figure for all that went before and n.
    pub(crate) fn and(self, n: usize) -> Figure {
        Figure {
            value: (self.value * 31 + n % 65521) % 65521,
        }
    }

    // The figure for some bytes.
    pub(crate) fn of(bytes: &[u8]) -> Figure {
        bytes
            .iter()
            .fold(Figure::new(), |figure, &b| figure.and(usize::from(b)))
    }
}

impl From<Figure> for usize {
    fn from(figure: Figure) -> usize {
        figure.value
    }
}

impl fmt::Display for Figure {
    fn fmt<W: fmt::Write>(&self, f: &mut fmt::Formatter<W>) -> fmt::Result {
        write!(f, "{}", self.value)
    }
}
