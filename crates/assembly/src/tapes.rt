ghost use Rattle.std.specs.Prelude.{◌≡◌, ◌++◌, OnOk};
ghost use Rattle.records.specs.Layout.{bytes_of};

use records::Entry;
use std::alloc::AllocError;

// The longest record there is: an M.
const LONGEST: usize = 19;

// Puts an entry's record behind the records of a tape.
pub fn append(tape: &mut Vec<u8>, entry: &Entry) -> Result<(), AllocError>
    ensures { OnOk result (tape.new.items ≡ tape.old.items ++ bytes_of entry.now) }
{
    let mut record = [0; LONGEST];
    let len = entry.write(&mut record, 0).unwrap();
    tape.extend_from_slice(&record[..len])
}
