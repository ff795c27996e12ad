ghost use Rattle.std.specs.Prelude.{◌≡◌, ◌+◌, ◌^◌, ◌<◌, Ok, length, MatchOption};
ghost use Rattle.records.specs.Layout.{bytes_of};
ghost use Rattle.records.specs.Decoding.{Fits};

use crate::entries::Entry;
use crate::reading::read;
use crate::text::figure_of;
use std::num::ParseIntError;

fn half(n: u16)
    ensures { n < 2 ^ 16 }
{
    let _ = n;
}

fn word(n: u32)
    ensures { n < 2 ^ 32 }
{
    let _ = n;
}

// Each field of an entry is within its width, as its type says.
fn fits(entry: &Entry)
    ensures { Fits entry.now }
{
    match entry {
        Entry::Month(m) => {
            half(m.terms.hours);
            word(m.terms.tmnsr.0);
            word(m.terms.tmor.0);
            word(m.terms.capacity.0);
            half(m.terms.factor.0);
        }
        Entry::Award(a) | Entry::Tell(a) => word(a.kw.0),
        Entry::Offer(o) => {
            half(o.number.0);
            half(o.first.0);
            half(o.last.0);
            word(o.kw.0);
        }
        Entry::Confirm(c) => half(c.number.0),
        Entry::Cancel(n) => half(n.0),
        Entry::Open(h) => half(h.0),
        Entry::Load(l) => word(l.load.0),
        Entry::Close | Entry::Abandon => {}
    }
}

// Writes an entry and reads it again: where it fits, it is the same entry.
pub fn written_back(entry: &Entry, column: &mut [u8], at: usize) -> Option<Entry>
    ensures { MatchOption result (length column.old < at + length (bytes_of entry.now)) (λ e. e ≡ entry.now) }
{
    fits(entry);
    entry.write(column, at)?;
    match read(column, at) {
        Ok(Some(record)) => {
            let back = record.entry();
            fits(&back);
            Some(back)
        }
        _ => None,
    }
}

// Writes a figure in decimal and reads it again: it is the same figure.
pub fn figure_back(n: i64) -> Result<i64, ParseIntError>
    ensures { result ≡ Ok n }
{
    figure_of(n).as_str().parse()
}
