ghost use Rattle.std.specs.Prelude.{◌≡◌};
ghost use Rattle.sheet.specs.Faults.{ground_of};

use figures::{Ground, Layer};

// Why a sheet by itself denies a call.
#[derive(Clone, Copy, PartialEq, Eq, Debug)]
pub enum SheetFault {
    // The number of seats or of zones is beyond its limit.
    Size,
    // The seat, zone or product is beyond the sheet.
    NoCell,
    // The kW figure is beyond its limit.
    Figure,
    // The cell has an award.
    Awarded,
}

impl From<SheetFault> for Ground {
    ghost from_gives = { λ e g. g ≡ ground_of e };

    fn from(fault: SheetFault) -> Ground {
        let number = match fault {
            SheetFault::Size => 5,
            SheetFault::NoCell => 6,
            SheetFault::Figure => 7,
            SheetFault::Awarded => 8,
        };
        Ground {
            number,
            layer: Layer::Sheet,
            place: 0,
        }
    }
}
