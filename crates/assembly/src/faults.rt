ghost use Rattle.std.specs.Prelude.{Some};
ghost use Rattle.assembly.specs.Messages.{message_of};

use std::fmt;

// Why a line is no record.
#[derive(Clone, Copy, PartialEq, Eq, Debug)]
pub enum LineFault {
    // The kind letter is unknown.
    Unknown,
    // As many fields as its kind has do not follow the letter: how many that is.
    Count(usize),
    // The first field that is no number or too large: its number after the letter, counted from 1, and the most that it may be.
    Field(usize, u32),
}

// What was expected of the line.
impl fmt::Display for LineFault {
    ghost output = { λ e. Some (message_of e) };

    fn fmt<W: fmt::Write>(&self, f: &mut fmt::Formatter<W>) -> fmt::Result {
        match self {
            LineFault::Unknown => write!(
                f,
                "unknown kind: expected one of the letters M A O C X H T L E B, then its fields"
            ),
            LineFault::Count(n) => write!(
                f,
                "wrong count of fields: expected {n} after the kind letter"
            ),
            LineFault::Field(k, most) => write!(
                f,
                "field {k} does not fit: expected a whole number from 0 to {most}"
            ),
        }
    }
}
