// The words of a line of text: what parts its fields, and the numbers that fields write.
#![tactic(auto)]

ghost use Rattle.std.specs.Prelude.{◌≡◌, ℕ, ◌-◌, ◌^◌, min, List};
ghost use Rattle.std.specs.Iterator.{YieldsFirstRef, item_count};
ghost use Rattle.std.specs.Option.{option_map};
ghost use Rattle.words.specs.Fields.{blank, fields_of};
ghost use Rattle.words.specs.Numbers.{number_of};

use std::marker::Model;

// Whether a byte parts fields: a space, a tab or a carriage return.
pub fn is_blank(b: u8) -> bool
    ensures { result ≡ blank b }
{
    matches!(b, b' ' | b'\t' | b'\r')
}

// The fields of a line that are left, in order.
#[derive(Drop)]
pub struct SplitFields<'a> {
    rest: &'a [u8],
}

impl<'a> Model for SplitFields<'a> {
    ghost Value = { List (List ℕ) };

    ghost view = { λ s. fields_of s.rest.now };
}

impl<'a> Iterator for SplitFields<'a> {
    type Item = &'a [u8];

    ghost next_gives = { YieldsFirstRef (λ fields. fields) };

    ghost remaining = { item_count (λ fields. fields) };

    fn next(&mut self) -> Option<&'a [u8]> {
        let line = self.rest;

        // The blanks in front, passed over in one go: a line may have many.
        let start = line
            .iter()
            .position(|b| !is_blank(*b))
            .unwrap_or(line.len());
        let (_, rest) = line.split_at(start);
        if rest.is_empty() {
            return None;
        }
        let end = rest.iter().position(|b| is_blank(*b)).unwrap_or(rest.len());
        let (field, rest) = rest.split_at(end);
        self.rest = rest;
        Some(field)
    }
}

// The fields of a line, in order: its longest runs of bytes that are not blank.
pub fn split_fields(line: &[u8]) -> SplitFields<'_>
    ensures { result ≡ fields_of line.now }
{
    SplitFields { rest: line }
}

// The number that one or more digits write, or u64::MAX where it is larger.
pub fn number(digits: &[u8]) -> Option<u64>
    ensures { result ≡ option_map (λ n. min n (2 ^ 64 - 1)) (number_of digits.now) }
{
    if digits.is_empty() {
        return None;
    }
    let mut n: u64 = 0;
    for b in digits {
        if !b.is_ascii_digit() {
            return None;
        }
        n = n.saturating_mul(10).saturating_add(u64::from(*b - b'0'));
    }
    Some(n)
}
