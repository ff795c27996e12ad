ghost use Rattle.std.specs.Prelude.{◌≡◌, ◌+◌, ◌≤◌, ◌∷◌, ◌++◌, length};
ghost use Rattle.std.specs.Fmt.{signed_decimal};
ghost use Rattle.records.specs.Writing.{Written};
ghost use Rattle.records.specs.Text.{line_text, denial_text, letter_text, abandoned_text};

use crate::writing::put;
use arrayvec::ArrayString;
use figures::{Cents, Ground, Hour, StatementLine};
use itoa::{Buffer, Integer};

// Writes the shortest decimal form of a figure.
pub fn write_figure(column: &mut [u8], at: usize, n: i64) -> Option<usize>
    ensures { Written (signed_decimal n) at column.old result column.new }
{
    put(column, at, figure_of(n).as_str().as_bytes())
}

// Room for the longest line that is written here.
pub(crate) type Text = ArrayString<80>;

// A number behind what the text holds.
fn push_number<I: Integer>(text: &mut Text, n: I)
    requires { length text.old.bytes + I.MAX_STR_LEN ≤ 80 }
    ensures bytes { text.new.bytes ≡ text.old.bytes ++ I.text n }
    ensures long { length text.new.bytes ≤ length text.old.bytes + I.MAX_STR_LEN }
{
    text.push_str(Buffer::new().format(n));
}

// The figure of an amount behind what the text holds.
fn push_cents(text: &mut Text, cents: Cents)
    requires { length text.old.bytes + 20 ≤ 80 }
    ensures bytes { text.new.bytes ≡ text.old.bytes ++ signed_decimal cents.0 }
    ensures long { length text.new.bytes ≤ length text.old.bytes + 20 }
{
    push_number(text, cents.0);
}

// The shortest decimal form of a figure, '-' before a negative one.
pub(crate) fn figure_of(n: i64) -> Text
    ensures { result.bytes ≡ signed_decimal n }
{
    let mut text = Text::new();
    push_cents(&mut text, Cents(n));
    text
}

fn line_of(line: &StatementLine) -> Text
    ensures { result.bytes ≡ line_text line.now }
{
    let mut text = Text::new();
    push_number(&mut text, line.hour.0);
    text.push(' ');
    push_number(&mut text, line.seat.0);
    text.push(' ');
    push_cents(&mut text, line.credits);
    text.push(' ');
    push_cents(&mut text, line.penalties);
    text.push(' ');
    push_cents(&mut text, line.charge);
    text.push('\n');
    text
}

// Writes a line of a statement: hour, seat, credits, penalties, charge.
pub fn write_line(column: &mut [u8], at: usize, line: &StatementLine) -> Option<usize>
    ensures { Written (line_text line.now) at column.old result column.new }
{
    put(column, at, line_of(line).as_str().as_bytes())
}

fn denial_of(ordinal: usize, ground: Ground) -> Text
    ensures { result.bytes ≡ denial_text ordinal ground }
{
    let mut text = Text::new();
    text.push_str("? ");
    push_number(&mut text, ordinal);
    text.push(' ');
    push_number(&mut text, ground.number);
    text.push(' ');
    text.push(ground.layer.letter());
    text.push('\n');
    text
}

// Writes a denial: the ordinal of the record that was denied, the number of the ground and the letter of its layer.
pub fn write_denial(column: &mut [u8], at: usize, ordinal: usize, ground: Ground) -> Option<usize>
    ensures { Written (denial_text ordinal ground) at column.old result column.new }
{
    put(column, at, denial_of(ordinal, ground).as_str().as_bytes())
}

fn letter_of(letter: char) -> Text
    ensures { result.bytes ≡ letter_text letter }
{
    let mut text = Text::new();
    text.push(letter);
    text.push('\n');
    text
}

// Writes the letter that heads a statement.
pub fn write_letter(column: &mut [u8], at: usize, letter: char) -> Option<usize>
    ensures { Written (letter_text letter) at column.old result column.new }
{
    put(column, at, letter_of(letter).as_str().as_bytes())
}

fn abandoned_of(hour: Hour) -> Text
    ensures { result.bytes ≡ abandoned_text hour }
{
    let mut text = Text::new();
    text.push_str("! ");
    push_number(&mut text, hour.0);
    text.push('\n');
    text
}

// Writes that the tape ended with an hour open.
pub fn write_abandoned(column: &mut [u8], at: usize, hour: Hour) -> Option<usize>
    ensures { Written (abandoned_text hour) at column.old result column.new }
{
    put(column, at, abandoned_of(hour).as_str().as_bytes())
}
