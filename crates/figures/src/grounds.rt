ghost use Rattle.std.specs.Prelude.{◌≡◌, Some};
ghost use Rattle.figures.specs.Grounds.{letter_of, layer_text, ground_text};

use std::fmt;

// The part of the program that denies a call.
#[derive(Clone, Copy, PartialEq, Eq, Debug)]
pub enum Layer {
    Tape,
    Sheet,
    Book,
    Month,
    Rule,
}

impl Layer {
    // The letter by which a denial names its layer. A `match`, since no derive knows a letter.
    pub fn letter(self) -> char
        ensures { result ≡ letter_of self }
    {
        match self {
            Layer::Tape => 't',
            Layer::Sheet => 's',
            Layer::Book => 'b',
            Layer::Month => 'm',
            Layer::Rule => 'r',
        }
    }
}

// What a denial says: the number of its ground, its layer, and the place of what offends. The number is a number because it is
// what a statement prints; why a call was denied is an enum of its layer.
// The place is an hour, or a byte of a tape, where the ground has one, and 0 elsewhere.
#[derive(Clone, Copy, PartialEq, Eq, Debug)]
pub struct Ground {
    pub number: u8,
    pub layer: Layer,
    pub place: usize,
}

// The number and the letter of the layer, with a space between.
impl fmt::Display for Ground {
    ghost output = { λ g. Some (ground_text g) };

    fn fmt<W: fmt::Write>(&self, f: &mut fmt::Formatter<W>) -> fmt::Result {
        write!(f, "{} {}", self.number, self.layer)
    }
}

impl fmt::Display for Layer {
    ghost output = { λ l. Some (layer_text l) };

    fn fmt<W: fmt::Write>(&self, f: &mut fmt::Formatter<W>) -> fmt::Result {
        write!(f, "{}", self.letter())
    }
}
