ghost use Rattle.assembly.specs.Lines.{Numbered};

use crate::faults::LineFault;
use words::number;

// The number that the field at that place writes, where it is no more than `most`.
pub(crate) fn word(place: usize, field: &[u8], most: u32) -> Result<u32, LineFault>
    ensures { Numbered most place field.now result }
{
    match number(field) {
        Some(n) if n <= u64::from(most) => Ok(n as u32),
        _ => Err(LineFault::Field(place, most)),
    }
}

pub(crate) fn four(place: usize, field: &[u8]) -> Result<u32, LineFault>
    ensures { Numbered 4294967295 place field.now result }
{
    word(place, field, u32::MAX)
}

pub(crate) fn two(place: usize, field: &[u8]) -> Result<u16, LineFault>
    ensures { Numbered 65535 place field.now result }
{
    Ok(word(place, field, 65535)? as u16)
}

pub(crate) fn one(place: usize, field: &[u8]) -> Result<u8, LineFault>
    ensures { Numbered 255 place field.now result }
{
    Ok(word(place, field, 255)? as u8)
}
