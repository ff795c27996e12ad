ghost use Rattle.std.specs.Prelude.{map};
ghost use Rattle.words.specs.Fields.{fields_of};
ghost use Rattle.assembly.specs.Lines.{OfKind, IsEntryOf};

use crate::faults::LineFault;
use crate::fields::first_fields;
use crate::kinds::{amount, confirmation, hour, load, month, nothing, number, offer};
use records::Entry;

// The entry of that kind with those fields.
fn entry(kind: u8, fields: &[&[u8]]) -> Result<Entry, LineFault>
    ensures { OfKind kind (map (λ f. f.now) fields.now) result }
{
    match char::from(kind) {
        'M' => month(fields).map(Entry::Month),
        'A' => amount(fields).map(Entry::Award),
        'O' => offer(fields).map(Entry::Offer),
        'C' => confirmation(fields).map(Entry::Confirm),
        'X' => number(fields).map(Entry::Cancel),
        'H' => hour(fields).map(Entry::Open),
        'T' => amount(fields).map(Entry::Tell),
        'L' => load(fields).map(Entry::Load),
        'E' => nothing(fields).map(|_| Entry::Close),
        'B' => nothing(fields).map(|_| Entry::Abandon),
        _ => Err(LineFault::Unknown),
    }
}

// What the fields of a line say.
fn read(fields: &[&[u8]]) -> Result<Option<Entry>, LineFault>
    ensures { IsEntryOf (map (λ f. f.now) fields.now) result }
{
    let Some((kind, numbers)) = fields.split_first() else {
        return Ok(None);
    };
    match *kind {
        [b'#', ..] => Ok(None),
        [letter] => entry(*letter, numbers).map(Some),
        _ => Err(LineFault::Unknown),
    }
}

// The record that a line of text writes; none where the line is blank or a comment.
pub fn entry_of(line: &[u8]) -> Result<Option<Entry>, LineFault>
    ensures { IsEntryOf (fields_of line.now) result }
{
    read(&first_fields(line))
}
