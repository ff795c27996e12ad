ghost use Rattle.std.specs.Prelude.{◌≡◌, Some, MatchResult};
ghost use Rattle.std.specs.Int.{saturate_to_bits};
ghost use Rattle.std.specs.Option.{option_map};
ghost use Rattle.bill.specs.declared.fields.LineFault.TheVariants.{NoMemory};
ghost use Rattle.bill.specs.Messages.{message_of};
ghost use Rattle.words.specs.Fields.{fields_of};
ghost use Rattle.bill.specs.Figures.{figure_of};
ghost use Rattle.bill.specs.Fields.{Values, Failing};

use std::alloc::{AllocError, AllocFailed, Global};
use std::fmt;
use words::{number, split_fields};

// Why a line gives no figures.
#[derive(Clone, Copy)]
pub enum LineFault {
    // The line holds no field at all.
    Blank,
    // The number, counted from 1, of the first field that is no figure.
    NotFigure(usize),
    NoMemory,
}

// What was expected of the line.
impl fmt::Display for LineFault {
    ghost output = { λ e. Some (message_of e) };

    fn fmt<W: fmt::Write>(&self, f: &mut fmt::Formatter<W>) -> fmt::Result {
        match self {
            LineFault::Blank => write!(f, "no figures: expected a total in cents, then the loads"),
            LineFault::NotFigure(k) => write!(
                f,
                "field {k} is not a whole number: expected a total in cents, then the loads"
            ),
            LineFault::NoMemory => write!(f, "no memory to read it"),
        }
    }
}

impl From<AllocError> for LineFault {
    ghost from_gives = { λ _ r. r ≡ NoMemory };

    fn from(_e: AllocError) -> LineFault {
        LineFault::NoMemory
    }
}

// A second one, since `push` fails with another type than `collect` and `format!`, and `?` meets both.
impl<T: Drop> From<AllocFailed<T>> for LineFault {
    ghost from_gives = { λ _ r. r ≡ NoMemory };

    fn from(_e: AllocFailed<T>) -> LineFault {
        LineFault::NoMemory
    }
}

// The integer that a field writes: an optional '-', then digits. Past 64 bits it is the nearest i64.
fn figure(field: &[u8]) -> Option<i64>
    ensures { result ≡ option_map (saturate_to_bits 63) (figure_of field.now) }
{
    match field {
        [b'-', digits @ ..] => number(digits).map(|n| 0i64.saturating_sub_unsigned(n)),
        _ => number(field).map(|n| 0i64.saturating_add_unsigned(n)),
    }
}

// The figures of a line, in order.
pub(crate) fn read_figures(heap: Global, line: &[u8]) -> Result<Vec<i64>, LineFault>
    ensures { MatchResult result (λ v. Values (fields_of line.now) v.items) (λ e. Failing (fields_of line.now) e) }
{
    let mut values = Vec::new(heap);
    for field in split_fields(line) {
        let Some(value) = figure(field) else {
            return Err(LineFault::NotFigure(values.len() + 1));
        };
        values.push(value)?;
    }
    Ok(values)
}
