ghost use Rattle.std.specs.Prelude.{◌≡◌, ◌<◌, true, false, length, vec_len, OnOk, slice_index_or};
ghost use Rattle.figures.specs.Grounds.{Judged};
ghost use Rattle.figures.specs.Limits.{max_hours};
ghost use Rattle.book.specs.Limits.{max_trades};
ghost use Rattle.book.specs.Trades.{Fit};
ghost use Rattle.book.specs.Deals.{in_book, beyond, misfigured, void, offer_grounds, begins_before, offer_answer, offer_answer_from, offered, deal_of, IfHeld};
ghost use Rattle.book.specs.Books.{Lawful, Called};

use crate::deals::Deal;
use crate::faults::BookFault;
use crate::kept::Book;
use crate::trades::Offer;
use figures::{Hour, Kw, MAX_HOURS, PRODUCTS};
use sheet::{MAX_KW, Sheet};

impl Offer {
    // Whether its kW are beyond their limits.
    fn is_misfigured(&self) -> bool
        ensures { result ≡ misfigured self.now }
    {
        self.kw == Kw(0) || self.kw > MAX_KW
    }

    // Whether it has one seat on both sides, or its first hour after its last.
    fn is_void(&self) -> bool
        ensures { result ≡ void self.now }
    {
        self.seller == self.buyer || self.first > self.last
    }
}

impl<S: Sheet> Book<S> {
    // Whether a seat, zone, product or hour of the offer is beyond the book.
    fn is_beyond(&self, offer: &Offer) -> bool
        ensures is { Lawful S.Sheet.table S.Sheet.lawful self.now → result ≡ beyond (S.Sheet.table self.now.below) offer.now }
        ensures hours { result ≡ false → offer.now.last.0 < max_hours }
    {
        let seats = self.below.seats();
        let zones = self.below.zones();
        offer.seller.0 >= seats
            || offer.buyer.0 >= seats
            || offer.zone.0 >= zones
            || offer.product.0 >= PRODUCTS
            || offer.first.0 >= MAX_HOURS
            || offer.last.0 >= MAX_HOURS
    }

    // Whether the book takes the offer.
    fn admits(&self, offer: &Offer) -> Result<(), BookFault>
        ensures judged { Lawful S.Sheet.table S.Sheet.lawful self.now → Judged (offer_grounds (S.Sheet.table self.now.below) self.now.ledger.trades.items offer.now) result }
        ensures fits { OnOk result (Fit offer.now × (in_book self.now.ledger.trades.items offer.now.number.0 ≡ false) × (vec_len self.now.ledger.trades < max_trades)) }
    {
        if self.is_beyond(offer) {
            return Err(BookFault::Beyond);
        }
        if offer.is_misfigured() {
            return Err(BookFault::Figure);
        }
        if offer.is_void() {
            return Err(BookFault::Void);
        }
        if self.ledger.index_of(offer.number).is_some() {
            return Err(BookFault::Known);
        }
        if self.ledger.is_full() {
            return Err(BookFault::Full);
        }
        Ok(())
    }

    // Enters a trade as offered.
    pub fn offer(&mut self, offer: Offer) -> Result<(), BookFault>
        ensures { Called S.Sheet.table S.Sheet.lawful (offer_answer offer) (λ rs. offered rs offer) self.old (deal_of result) self.new }
    {
        self.offer_from(offer, Hour(0))?;
        Ok(())
    }

    // The same for a layer above, which holds back a trade that begins before the hour `from`.
    pub fn offer_from(&mut self, offer: Offer, from: Hour) -> Result<Deal, BookFault>
        ensures call { Called S.Sheet.table S.Sheet.lawful (offer_answer_from from.0 offer) (λ rs. offered rs offer) self.old result self.new }
        ensures held { IfHeld result (begins_before offer from.0 ≡ true) }
    {
        self.admits(&offer)?;
        if offer.first < from {
            return Ok(Deal::Held);
        }
        self.ledger.enter(offer);
        Ok(Deal::Done)
    }
}
