ghost use Rattle.std.specs.Prelude.{◌≡◌, []};
ghost use Rattle.book.specs.Books.{table_of, Lawful, AddsUp};
ghost use Rattle.book.specs.Totals.{over_bounded};

use crate::kept::{Book, Pages};
use crate::trades::Trade;
use figures::{Kw, Seat};
use sheet::{Place, Sheet};

impl<S> Book<S> {
    // The trades of the book, in the order in which they were offered.
    pub fn trades(&self) -> &[Trade]
        ensures { result.now ≡ self.now.ledger.trades.items }
    {
        self.ledger.trades()
    }
}

impl<S: Sheet> Book<S> {
    // Lays an empty book on a sheet.
    pub fn new(below: S, pages: Pages) -> Book<S>
        ensures below { result.below ≡ below }
        ensures trades { result.ledger.trades.items ≡ [] }
        ensures lawful { S.Sheet.lawful below → Lawful S.Sheet.table S.Sheet.lawful result }
        ensures adds { S.Sheet.lawful below → AddsUp S.Sheet.table result }
    {
        let Pages { ledger } = pages;
        Book { below, ledger }
    }
}

impl<S: Sheet> Sheet for Book<S> {
    ghost table = { λ b. table_of S.Sheet.table b };

    ghost lawful = { λ b. Lawful S.Sheet.table S.Sheet.lawful b };

    ghost bounded = { λ x ok. over_bounded (S.Sheet.table x.below) x.ledger.trades.items ok.trades (S.Sheet.bounded x.below ok.under) };

    fn seats(&self) -> u8 {
        self.below.seats()
    }

    fn zones(&self) -> u8 {
        self.below.zones()
    }

    // Inlined, so that what no hour changes is tested once for all the hours of an offer.
    #[inline]
    fn cell(&self, seat: Seat, place: Place) -> Option<Kw> {
        let kw = self.below.cell(seat, place)?;
        let moved = self.ledger.moved(seat, place);
        Some(Kw(kw.0.saturating_add(moved.bought).saturating_sub(moved.sold)))
    }

    fn total(&self, place: Place) -> Option<Kw> {
        self.below.total(place)
    }
}
