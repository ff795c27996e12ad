ghost use Rattle.std.specs.Prelude.{◌≡◌, ◌≤◌, IfOk, length};
ghost use Rattle.records.specs.Layout.{bytes_of};
ghost use Rattle.records.specs.Tapes.{EntryAt, IsReading};

use crate::entries::Entry;
use crate::faults::TapeFault;
use crate::reading::read;
use std::alloc::{AllocError, Global};

// What a whole tape says: its records in order, how many bytes they take, and why it could not be read on, if so.
#[derive(Drop)]
pub struct Reading {
    pub entries: Vec<Entry>,
    pub bytes: usize,
    pub fault: Option<TapeFault>,
}

impl Entry {
    // How many bytes its record takes.
    pub fn len(&self) -> usize
        ensures { result ≡ length (bytes_of self.now) }
    {
        match self {
            Entry::Month(_) => 19,
            Entry::Award(_) | Entry::Tell(_) => 8,
            Entry::Offer(_) => 15,
            Entry::Confirm(_) => 4,
            Entry::Cancel(_) | Entry::Open(_) => 3,
            Entry::Load(_) => 6,
            Entry::Close | Entry::Abandon => 1,
        }
    }
}

// What the record at a byte of the tape says; none at its end.
fn entry_at(tape: &[u8], place: usize) -> Result<Option<Entry>, TapeFault>
    requires { place ≤ length tape.now }
    ensures { EntryAt tape.now place result }
{
    match read(tape, place) {
        Ok(Some(record)) => Ok(Some(record.entry())),
        Ok(None) => Ok(None),
        Err(fault) => Err(fault),
    }
}

// Reads a tape to its end, or to the first record that cannot be read.
pub fn read_all(heap: Global, tape: &[u8]) -> Result<Reading, AllocError>
    ensures { IfOk result (λ r. IsReading tape.now r) }
{
    let mut entries = Vec::new(heap);
    let mut bytes = 0;
    loop {
        match entry_at(tape, bytes) {
            Ok(Some(entry)) => {
                entries.push(entry)?;
                bytes += entry.len();
            }
            Ok(None) => {
                return Ok(Reading {
                    entries,
                    bytes,
                    fault: None,
                });
            }
            Err(fault) => {
                return Ok(Reading {
                    entries,
                    bytes,
                    fault: Some(fault),
                });
            }
        }
    }
}
