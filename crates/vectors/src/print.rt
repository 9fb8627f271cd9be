// How what the product reads and answers is printed.
use atr::Report;
use block::Event;
use std::fmt;

// Bytes in hexadecimal digits, each behind a space.
#[derive(Clone, Copy)]
pub(crate) struct Hex<'a>(pub(crate) &'a [u8]);

impl<'a> fmt::Display for Hex<'a> {
    fn fmt<W: fmt::Write>(&self, f: &mut fmt::Formatter<W>) -> fmt::Result {
        for b in self.0 {
            write!(f, " {b:02x}")?;
        }
        Ok(())
    }
}

// What a block is read as, with the byte that it carries.
#[derive(Clone, Copy)]
pub(crate) struct Heard(pub(crate) Event);

impl fmt::Display for Heard {
    fn fmt<W: fmt::Write>(&self, f: &mut fmt::Formatter<W>) -> fmt::Result {
        match self.0 {
            Event::I { number, more } => {
                let place = if more { "more" } else { "last" };
                write!(f, "I {place} {number:02x}")
            }
            Event::R { number } => write!(f, "R {number:02x}"),
            Event::IfsRequest { size } => write!(f, "IFS request {size:02x}"),
            Event::IfsResponse { size } => write!(f, "IFS response {size:02x}"),
            Event::Abort => write!(f, "abort"),
            Event::Wtx { times } => write!(f, "WTX {times:02x}"),
            Event::Edc => write!(f, "EDC"),
            Event::Other => write!(f, "other"),
        }
    }
}

// What an ATR asks for.
#[derive(Clone, Copy)]
pub(crate) struct Asked(pub(crate) Report);

impl fmt::Display for Asked {
    fn fmt<W: fmt::Write>(&self, f: &mut fmt::Formatter<W>) -> fmt::Result {
        let r = self.0;
        write!(
            f,
            "IFSC {} distance {} CWT {} BWT {}",
            r.ifsc, r.distance, r.cwt, r.bwt
        )?;
        write!(
            f,
            " D {} historical {} offers F {} D {}",
            r.used, r.historical, r.f, r.d
        )
    }
}

pub(crate) fn yes_or_no(yes: bool) -> &'static str {
    if yes { "yes" } else { "no" }
}
