ghost use Rattle.std.specs.Prelude.{◌≡◌};
ghost use Rattle.book.specs.Deals.{ground_of};

use figures::{Ground, Hour, Layer};

// Why a book by itself denies a call.
#[derive(Clone, Copy, PartialEq, Eq, Debug)]
pub enum BookFault {
    // A seat, zone, product or hour is beyond the book.
    Beyond,
    // The kW figure is beyond its limits.
    Figure,
    // Seller and buyer are one, or the first hour follows the last.
    Void,
    // A trade has the offered number.
    Known,
    // The book holds as many trades as it can.
    Full,
    // No trade has that number.
    NoTrade,
    // The confirming seat is not the buyer, or the trade is confirmed already.
    NotConfirmable,
    // In that hour the cell of the seller or the buyer is blank.
    Blank(Hour),
    // In that hour the seller holds less than the trade to be confirmed.
    Short(Hour),
    // In that hour the buyer holds less than the confirmed trade to be cancelled.
    Spent(Hour),
}

impl From<BookFault> for Ground {
    ghost from_gives = { λ e g. g ≡ ground_of e };

    fn from(fault: BookFault) -> Ground {
        let (number, place) = match fault {
            BookFault::Beyond => (6, 0),
            BookFault::Figure => (7, 0),
            BookFault::Void => (9, 0),
            BookFault::Known => (10, 0),
            BookFault::Full => (11, 0),
            BookFault::NoTrade => (12, 0),
            BookFault::NotConfirmable => (13, 0),
            BookFault::Blank(hour) => (16, usize::from(hour.0)),
            BookFault::Short(hour) => (17, usize::from(hour.0)),
            BookFault::Spent(hour) => (18, usize::from(hour.0)),
        };
        Ground {
            number,
            layer: Layer::Book,
            place,
        }
    }
}
