ghost use Rattle.std.specs.Prelude.{◌≡◌};
ghost use Rattle.sheet.specs.Hourly.{hourly_table, row_of, reading};
ghost use Rattle.sheet.specs.Tables.{kilowatts};
ghost use Rattle.std.specs.List.{slice_get};
ghost use Rattle.sheet.specs.Frames.{framed_bounded};
ghost use Rattle.sheet.specs.Readings.{reading-le};

use crate::columns::Column;
use crate::places::Place;
use crate::sheets::{MAX_AWARD, Sheet};
use crate::size::SheetSize;
use figures::{Kw, PRODUCTS, Seat};

// What each seat owes hour by hour, read from a column in the order hour, seat, zone, product, the last fastest.
// A number above the limit is a blank, and so is a place beyond the column's end.
#[derive(Drop)]
pub struct HourlySheet<C> {
    size: SheetSize,
    column: C,
}

impl<C: Column> HourlySheet<C> {
    pub fn new(size: SheetSize, column: C) -> HourlySheet<C>
        ensures size { result.size ≡ size }
        ensures column { result.column ≡ column }
    {
        HourlySheet { size, column }
    }
}

// What a number of a column says.
fn reading_of(number: Option<u32>) -> Option<Kw>
    ensures { kilowatts result ≡ reading number }
{
    number.map(Kw).filter(|kw| *kw <= MAX_AWARD)
}

impl SheetSize {
    // Where a column has the figure of a cell.
    fn row(&self, seat: Seat, place: Place) -> usize
        ensures { result ≡ row_of self.now.seats self.now.zones seat.0 place }
    {
        let by_seat = usize::from(place.hour.0) * usize::from(self.seats) + usize::from(seat.0);
        let by_zone = by_seat * usize::from(self.zones) + usize::from(place.zone.0);
        by_zone * usize::from(PRODUCTS) + usize::from(place.product.0)
    }
}

// It shares with the award sheet what `SheetSize` says; of a sheet over any reading each would be a reading with a type of its own.
impl<C: Column> Sheet for HourlySheet<C> {
    ghost table = { λ x. hourly_table x.size.seats x.size.zones (C.Column.numbers x.column) };

    ghost lawful = { λ _. Unit {0} };

    ghost bounded = { λ x ok.
        let ns = C.Column.numbers x.column in
        framed_bounded x.size.seats x.size.zones (λ s w. reading (slice_get ns (row_of x.size.seats x.size.zones s w))) x.size.sized (λ s w e. reading-le (slice_get ns (row_of x.size.seats x.size.zones s w))) };

    fn seats(&self) -> u8 {
        self.size.seats
    }

    fn zones(&self) -> u8 {
        self.size.zones
    }

    fn cell(&self, seat: Seat, place: Place) -> Option<Kw> {
        if !self.size.has_cell(seat, place) {
            return None;
        }
        reading_of(self.column.number(self.size.row(seat, place)))
    }
}
