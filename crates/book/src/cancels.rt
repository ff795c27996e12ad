ghost use Rattle.std.specs.Prelude.{◌≡◌, ◌<◌, true, length};
ghost use Rattle.std.specs.List.{remove};
ghost use Rattle.figures.specs.Grounds.{Judged};
ghost use Rattle.book.specs.Deals.{undo_grounds, cancel_answer, cancel_answer_from, cancelled_in, begins_before, trade_of, deal_of, IfHeld};
ghost use Rattle.book.specs.Books.{Lawful, Called, table_of};

use crate::deals::Deal;
use crate::faults::BookFault;
use crate::kept::Book;
use crate::trades::{Trade, TradeEvent, Turn};
use figures::{Hour, TradeNumber};
use sheet::Sheet;

impl<S: Sheet> Book<S> {
    // Whether the trade may leave the book: what a confirmed one brought, its buyer still holds.
    fn spares(&self, trade: &Trade) -> Result<(), BookFault>
        ensures { Lawful S.Sheet.table S.Sheet.lawful self.now → Judged (undo_grounds (table_of S.Sheet.table self.now) trade.now) result }
    {
        let mut leaving = *trade;
        match leaving.turn(TradeEvent::Cancel)? {
            Turn::Undone => match self.first_short(trade.offer.buyer, &trade.offer) {
                Some(hour) => Err(BookFault::Spent(hour)),
                None => Ok(()),
            },
            Turn::Stands | Turn::Withdrawn => Ok(()),
        }
    }

    // Removes a trade, offered or confirmed, and its place serves again.
    pub fn cancel(&mut self, number: TradeNumber) -> Result<(), BookFault>
        ensures { Called S.Sheet.table S.Sheet.lawful (cancel_answer number.0) (λ rs. cancelled_in rs number.0) self.old (deal_of result) self.new }
    {
        self.cancel_from(number, Hour(0))?;
        Ok(())
    }

    // The same for a layer above, which holds back a trade that begins before the hour `from`.
    pub fn cancel_from(&mut self, number: TradeNumber, from: Hour) -> Result<Deal, BookFault>
        ensures call { Called S.Sheet.table S.Sheet.lawful (cancel_answer_from from.0 number.0) (λ rs. cancelled_in rs number.0) self.old result self.new }
        ensures held { IfHeld result (begins_before (trade_of self.old.ledger.trades.items number.0).offer from.0 ≡ true) }
    {
        let found = self.ledger.find(number)?;
        if found.trade.offer.first < from {
            return Ok(Deal::Held);
        }
        self.spares(&found.trade)?;
        self.ledger.strike(found.index);
        Ok(Deal::Done)
    }
}
