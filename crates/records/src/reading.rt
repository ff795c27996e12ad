ghost use Rattle.std.specs.Prelude.{◌≡◌, ◌^◌, ◌<◌, ◌≤◌, [], ◌∷◌, length, take, drop, MatchOption, MatchResult};
ghost use Rattle.records.specs.Reading.{RecordOf, ReadAt};
ghost use Rattle.records.specs.declared.faults.TapeFault.TheVariants.{Short};

use crate::faults::TapeFault;

// The body of a record: its part of the tape, and the byte where the record starts.
#[derive(Clone, Copy)]
pub struct Body<'a, const N: usize> {
    pub bytes: &'a [u8; N],
    pub place: usize,
}

// A record of a tape: its kind, and its body.
#[derive(Clone, Copy)]
pub enum Record<'a> {
    Month(Body<'a, 18>),
    Award(Body<'a, 7>),
    Offer(Body<'a, 14>),
    Confirm(Body<'a, 3>),
    Cancel(Body<'a, 2>),
    Open(Body<'a, 2>),
    Tell(Body<'a, 7>),
    Load(Body<'a, 5>),
    // These two have no body: the byte where the record starts.
    Close(usize),
    Abandon(usize),
}

impl<'a, const N: usize> Body<'a, N> {
    // The body that follows the kind letter.
    fn read(rest: &'a [u8], place: usize) -> Result<Body<'a, N>, TapeFault>
        requires { N < 2 ^ 32 }
        ensures { MatchResult result (λ b. (length b.bytes.now ≡ N) × (take N rest.now ≡ b.bytes.now) × (b.place ≡ place)) (λ e. (e ≡ Short place) × (length rest.now < N)) }
    {
        match rest.first_chunk() {
            Some(bytes) => Ok(Body { bytes, place }),
            None => Err(TapeFault::Short(place)),
        }
    }
}

// What stands at a byte of the tape and after it: the first byte and the others.
fn rest_of(tape: &[u8], place: usize) -> Option<(u8, &[u8])>
    ensures { MatchOption result (drop place tape.now ≡ []) (λ p. drop place tape.now ≡ p.0 ∷ p.1.now) }
{
    let (first, others) = tape.get(place..)?.split_first()?;
    Some((*first, others))
}

// The record of that kind whose body begins the bytes.
fn record_of(kind: u8, rest: &[u8], place: usize) -> Result<Record<'_>, TapeFault>
    ensures { RecordOf kind rest.now place result }
{
    match char::from(kind) {
        'M' => Body::read(rest, place).map(Record::Month),
        'A' => Body::read(rest, place).map(Record::Award),
        'O' => Body::read(rest, place).map(Record::Offer),
        'C' => Body::read(rest, place).map(Record::Confirm),
        'X' => Body::read(rest, place).map(Record::Cancel),
        'H' => Body::read(rest, place).map(Record::Open),
        'T' => Body::read(rest, place).map(Record::Tell),
        'L' => Body::read(rest, place).map(Record::Load),
        'E' => Ok(Record::Close(place)),
        'B' => Ok(Record::Abandon(place)),
        _ => Err(TapeFault::Unknown(place)),
    }
}

// The record that starts at a byte of the tape; none at its end.
pub fn read(tape: &[u8], place: usize) -> Result<Option<Record<'_>>, TapeFault>
    ensures { ReadAt tape.now place result }
{
    match rest_of(tape, place) {
        None => Ok(None),
        Some((kind, rest)) => record_of(kind, rest, place).map(Some),
    }
}
