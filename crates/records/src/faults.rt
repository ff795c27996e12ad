ghost use Rattle.std.specs.Prelude.{◌≡◌};
ghost use Rattle.records.specs.Reading.{ground_of};

use figures::{Ground, Layer};

// Why a tape cannot be read on: the byte is where the record starts.
#[derive(Clone, Copy, PartialEq, Eq, Debug)]
pub enum TapeFault {
    // The kind letter is unknown.
    Unknown(usize),
    // The tape ends inside the body.
    Short(usize),
}

impl From<TapeFault> for Ground {
    ghost from_gives = { λ e g. g ≡ ground_of e };

    fn from(fault: TapeFault) -> Ground {
        let (number, place) = match fault {
            TapeFault::Unknown(place) => (2, place),
            TapeFault::Short(place) => (3, place),
        };
        Ground {
            number,
            layer: Layer::Tape,
            place,
        }
    }
}
