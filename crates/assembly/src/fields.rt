ghost use Rattle.std.specs.Prelude.{◌≡◌, map, take};
ghost use Rattle.words.specs.Fields.{fields_of};

use arrayvec::ArrayVec;
use words::is_blank;

// The most fields of a line that are looked at: the letter, the eight of an offer, and one too many.
pub(crate) const MOST: usize = 10;

// The first fields of a line, in order: all of them, where there are no more than ten.
pub(crate) fn first_fields(line: &[u8]) -> ArrayVec<&[u8], MOST>
    ensures { map (λ f. f.now) result.items ≡ take 10 (fields_of line.now) }
{
    let mut fields = ArrayVec::new();
    for field in line
        .split(|b| is_blank(*b))
        .filter(|field| !field.is_empty())
    {
        if fields.is_full() {
            break;
        }
        fields.push(field);
    }
    fields
}
