ghost use Rattle.std.specs.Prelude.{◌≡◌, ℕ, Bool};
ghost use Rattle.figures.specs.Grounds.{Judged};
ghost use Rattle.sheet.specs.Tables.{at, kilowatts};
ghost use Rattle.book.specs.Deals.{lacks, blank_at, short_at, first_blank, first_short, first_of_hours, hour_of, cover_grounds};
ghost use Rattle.book.specs.Books.{Lawful, table_of};

use crate::faults::BookFault;
use crate::kept::Book;
use crate::trades::Offer;
use figures::{Hour, Kw, Seat};
use sheet::{Place, Sheet};

// Whether a cell holds less than `kw`, as a blank does.
fn lacks(cell: Option<Kw>, kw: Kw) -> bool
    ensures { result ≡ lacks kw.0 (kilowatts cell) }
{
    cell.is_none_or(|held| held < kw)
}

impl Offer {
    // Where it lies in one hour.
    fn place(&self, hour: Hour) -> Place
        ensures { result ≡ at self.now.zone.0 self.now.product.0 hour.0 }
    {
        Place {
            zone: self.zone,
            product: self.product,
            hour,
        }
    }

    // The first of its hours at which a test holds. A loop: of `find` over these hours no proof was found.
    fn first_hour<F: Fn(Hour) -> bool>(&self, test: F) -> Option<Hour>
        requires { F.IsAlwaysCallable test }
        ensures { (p : ℕ → Bool) → ((h : ℕ) (b : Bool) → F.post test (record { 0 = h }) b → b ≡ p h) → hour_of result ≡ first_of_hours self.now p }
    {
        for hour in self.first.0..=self.last.0 {
            if test(Hour(hour)) {
                return Some(Hour(hour));
            }
        }
        None
    }
}

// Whether a trade is covered, hour by hour. That the sheet below is lawful is a premise of each answer and no invariant of the
// type: a book is laid on any sheet, and its maker asks nothing of the caller.
impl<S: Sheet> Book<S> {
    // Whether in that hour the seller's or the buyer's cell is blank. A cell of the book is blank where the one below is, so what the
    // trades move is left aside.
    fn blank_at(&self, offer: &Offer, hour: Hour) -> bool
        ensures { Lawful S.Sheet.table S.Sheet.lawful self.now → result ≡ blank_at (table_of S.Sheet.table self.now) offer.now hour.0 }
    {
        let place = offer.place(hour);
        self.below.cell(offer.seller, place).is_none()
            || self.below.cell(offer.buyer, place).is_none()
    }

    // Whether in that hour a seat holds less than the offer's kW.
    fn short_at(&self, seat: Seat, offer: &Offer, hour: Hour) -> bool
        ensures { Lawful S.Sheet.table S.Sheet.lawful self.now → result ≡ short_at (table_of S.Sheet.table self.now) seat.0 offer.now hour.0 }
    {
        lacks(self.cell(seat, offer.place(hour)), offer.kw)
    }

    // The first hour of the offer at which a party's cell is blank.
    fn first_blank(&self, offer: &Offer) -> Option<Hour>
        ensures { Lawful S.Sheet.table S.Sheet.lawful self.now → hour_of result ≡ first_blank (table_of S.Sheet.table self.now) offer.now }
    {
        offer.first_hour(|hour| self.blank_at(offer, hour))
    }

    // The first hour of the offer at which the seat holds less than its kW.
    pub(crate) fn first_short(&self, seat: Seat, offer: &Offer) -> Option<Hour>
        ensures { Lawful S.Sheet.table S.Sheet.lawful self.now → hour_of result ≡ first_short (table_of S.Sheet.table self.now) seat.0 offer.now }
    {
        offer.first_hour(|hour| self.short_at(seat, offer, hour))
    }

    // Whether both parties' cells are filled in every hour of the offer, and the seller holds its kW there.
    pub(crate) fn check_cover(&self, offer: &Offer) -> Result<(), BookFault>
        ensures { Lawful S.Sheet.table S.Sheet.lawful self.now → Judged (cover_grounds (table_of S.Sheet.table self.now) offer.now) result }
    {
        if let Some(hour) = self.first_blank(offer) {
            return Err(BookFault::Blank(hour));
        }
        if let Some(hour) = self.first_short(offer.seller, offer) {
            return Err(BookFault::Short(hour));
        }
        Ok(())
    }
}
