ghost use Rattle.std.specs.Prelude.{◌≡◌, false, IfOk};
ghost use Rattle.figures.specs.Grounds.{Judged};
ghost use Rattle.sheet.specs.Faults.{missized, size_grounds};
ghost use Rattle.sheet.specs.Tables.{on_sheet, within};

use crate::faults::SheetFault;
use crate::places::Place;
use figures::{MAX_HOURS, MAX_SEATS, MAX_ZONES, PRODUCTS, Product, Seat, Zone};

// How many seats and zones a sheet has, each within its limit.
#[derive(Clone, Copy)]
pub struct SheetSize {
    pub(crate) seats: u8,
    pub(crate) zones: u8,
    ghost sized: { missized seats zones ≡ false },
}

impl SheetSize {
    pub fn new(seats: u8, zones: u8) -> Result<SheetSize, SheetFault>
        ensures judged { Judged (size_grounds seats zones) result }
        ensures made { IfOk result (λ x. (x.seats ≡ seats) × (x.zones ≡ zones)) }
    {
        if seats == 0 || usize::from(seats) > MAX_SEATS || zones == 0 || zones > MAX_ZONES {
            return Err(SheetFault::Size);
        }
        Ok(SheetSize { seats, zones })
    }

    // Whether a sheet of this size has the seat, zone and product.
    pub(crate) fn has(&self, seat: Seat, zone: Zone, product: Product) -> bool
        ensures { result ≡ on_sheet self.now.seats self.now.zones seat.0 zone.0 product.0 }
    {
        seat.0 < self.seats && zone.0 < self.zones && product.0 < PRODUCTS
    }

    // Whether it has a cell there.
    pub(crate) fn has_cell(&self, seat: Seat, place: Place) -> bool
        ensures { result ≡ within self.now.seats self.now.zones seat.0 place }
    {
        self.has(seat, place.zone, place.product) && place.hour.0 < MAX_HOURS
    }
}
