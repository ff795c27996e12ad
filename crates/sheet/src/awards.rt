ghost use Rattle.std.specs.Prelude.{◌≡◌, ℕ, ◌<◌, ◌≤◌, length, replicate, Some, None, MatchResult, OnOk, slice_index_or};
ghost use Rattle.figures.specs.Grounds.{Judged};
ghost use Rattle.sheet.specs.Limits.{max_award};
ghost use Rattle.sheet.specs.Tables.{kilowatts, filled};
ghost use Rattle.sheet.specs.Awards.{spot_of, award_table, award_grounds, Entered, Granted, held_at};
ghost use Rattle.sheet.specs.Frames.{framed_bounded};
ghost use Rattle.sheet.specs.Readings.{spot_below};

use crate::faults::SheetFault;
use crate::places::Place;
use crate::sheets::{MAX_AWARD, Sheet};
use crate::size::SheetSize;
use figures::{Kw, Product, Seat, Zone};

// Room for the awards of 16 seats, 4 zones and 2 products.
const AWARDS: usize = 128;

// What each seat was awarded for the season: one figure a zone and product, good for every hour.
#[derive(Drop)]
pub struct AwardSheet {
    size: SheetSize,
    // One row, since an array of arrays would ask for three bounds at each award and want no less room.
    awards: [Option<Kw>; AWARDS],
    ghost small: { (k : ℕ) → k < 128 → filled (kilowatts (slice_index_or awards k None)) ≤ max_award },
}

// The place in the column of the award of a seat, zone and product.
fn spot(seat: Seat, zone: Zone, product: Product) -> usize
    ensures { result ≡ spot_of seat.0 zone.0 product.0 }
{
    usize::from(seat.0) * 8 + usize::from(zone.0) * 2 + usize::from(product.0)
}

impl AwardSheet {
    // A sheet on which nothing is awarded yet.
    pub fn new(size: SheetSize) -> AwardSheet
        ensures size { result.size ≡ size }
        ensures none { result.awards ≡ replicate 128 None }
    {
        AwardSheet {
            size,
            awards: [None; AWARDS],
        }
    }

    // Enters an award of `kw` for every hour. Each cell takes one, and 0 kW is one. It has no hour, and so no
    // `Place`; a pair of zone and product would make `place.pair.zone` of every reading, and three signatures shorter.
    pub fn award(
        &mut self,
        seat: Seat,
        zone: Zone,
        product: Product,
        kw: Kw,
    ) -> Result<(), SheetFault>
        ensures judged { Judged (award_grounds self.old.size.seats self.old.size.zones self.old.awards seat.0 zone.0 product.0 kw.0) result }
        ensures size { self.new.size ≡ self.old.size }
        ensures granted { OnOk result (Granted (award_table self.old.size.seats self.old.size.zones self.old.awards) seat.0 zone.0 product.0 kw.0 (award_table self.new.size.seats self.new.size.zones self.new.awards)) }
        ensures entered { MatchResult result (λ _. Entered self.old.awards seat.0 zone.0 product.0 kw self.new.awards) (λ _. self.new ≡ self.old) }
    {
        if !self.size.has(seat, zone, product) {
            return Err(SheetFault::NoCell);
        }
        if kw > MAX_AWARD {
            return Err(SheetFault::Figure);
        }
        let i = spot(seat, zone, product);
        if self.awards[i].is_some() {
            return Err(SheetFault::Awarded);
        }
        self.awards[i] = Some(kw);
        Ok(())
    }
}

impl Sheet for AwardSheet {
    ghost table = { λ x. award_table x.size.seats x.size.zones x.awards };

    ghost lawful = { λ _. Unit {0} };

    ghost bounded = { λ x ok.
        framed_bounded x.size.seats x.size.zones (λ s w. Some (held_at x.awards s w.zone.0 w.product.0)) x.size.sized (λ s w e.
        x.small (spot_of s w.zone.0 w.product.0) (spot_below x.size.seats x.size.zones s w x.size.sized e)) };

    fn seats(&self) -> u8 {
        self.size.seats
    }

    fn zones(&self) -> u8 {
        self.size.zones
    }

    fn cell(&self, seat: Seat, place: Place) -> Option<Kw> {
        if !self.size.has_cell(seat, place) {
            return None;
        }
        let award = self.awards[spot(seat, place.zone, place.product)];
        Some(award.unwrap_or(Kw(0)))
    }
}
