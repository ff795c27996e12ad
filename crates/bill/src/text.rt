ghost use Rattle.std.specs.Prelude.{◌≡◌, IfOk, string_bytes};
ghost use Rattle.division.specs.Columns.{amounts};
ghost use Rattle.bill.specs.Lines.{shares_text, denied_text};

use figures::{Cents, Ground};
use std::alloc::{AllocError, Global};

// The letter, then a space and each share.
pub(crate) fn shares_line(
    heap: Global,
    letter: char,
    shares: &[Cents],
) -> Result<String, AllocError>
    ensures { IfOk result (λ s. string_bytes s ≡ shares_text letter (amounts shares.now)) }
{
    let mut line = format!(in heap; "{letter}")?;
    for share in shares {
        write!(line, " {share}")?;
    }
    Ok(line)
}

// The letter, a question mark, the number of the ground and the letter of its layer.
pub(crate) fn denied_line(heap: Global, letter: char, ground: Ground) -> Result<String, AllocError>
    ensures { IfOk result (λ s. string_bytes s ≡ denied_text letter ground) }
{
    format!(in heap; "{letter} ? {ground}")
}
