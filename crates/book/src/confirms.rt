ghost use Rattle.std.specs.Prelude.{◌≡◌, ◌<◌, true, length, IfOk, slice_index_or, slice_set};
ghost use Rattle.figures.specs.Grounds.{Judged};
ghost use Rattle.book.specs.declared.trades.TradeEvent.TheVariants.{Confirm};
ghost use Rattle.book.specs.Trades.{no_trade, confirmed, turn_of};
ghost use Rattle.book.specs.declared.trades.TradeState.TheVariants.{Offered};
ghost use Rattle.book.specs.Deals.{IsFound, find_grounds, confirm_answer, confirm_answer_from, confirmed_in, begins_before, trade_of, deal_of, IfHeld};
ghost use Rattle.book.specs.Books.{Lawful, Called};

use crate::deals::Deal;
use crate::faults::BookFault;
use crate::finds::Found;
use crate::kept::Book;
use crate::trades::TradeEvent;
use figures::{Hour, Seat, TradeNumber};
use sheet::Sheet;

impl<S: Sheet> Book<S> {
    // The trade, where the seat may confirm it.
    fn to_confirm(&self, number: TradeNumber, seat: Seat) -> Result<Found, BookFault>
        ensures judged { Lawful S.Sheet.table S.Sheet.lawful self.now → Judged (find_grounds (S.Sheet.table self.now.below) self.now.ledger.trades.items number.0 seat.0) result }
        ensures found { IfOk result (λ f. IsFound self.now.ledger.trades.items number.0 f × (f.trade.state ≡ Offered)) }
    {
        if seat.0 >= self.below.seats() {
            return Err(BookFault::Beyond);
        }
        let found = self.ledger.find(number)?;
        if found.trade.offer.buyer != seat {
            return Err(BookFault::NotConfirmable);
        }
        let mut standing = found.trade;
        standing.turn(TradeEvent::Confirm)?;
        Ok(found)
    }

    // The buyer confirms an offered trade, which then stands.
    pub fn confirm(&mut self, number: TradeNumber, seat: Seat) -> Result<(), BookFault>
        ensures { Called S.Sheet.table S.Sheet.lawful (confirm_answer number.0 seat.0) (λ rs. confirmed_in rs number.0) self.old (deal_of result) self.new }
    {
        self.confirm_from(number, seat, Hour(0))?;
        Ok(())
    }

    // The same for a layer above, which holds back a trade that begins before the hour `from`.
    pub fn confirm_from(
        &mut self,
        number: TradeNumber,
        seat: Seat,
        from: Hour,
    ) -> Result<Deal, BookFault>
        ensures call { Called S.Sheet.table S.Sheet.lawful (confirm_answer_from from.0 number.0 seat.0) (λ rs. confirmed_in rs number.0) self.old result self.new }
        ensures held { IfHeld result (begins_before (trade_of self.old.ledger.trades.items number.0).offer from.0 ≡ true) }
    {
        let found = self.to_confirm(number, seat)?;
        if found.trade.offer.first < from {
            return Ok(Deal::Held);
        }
        self.check_cover(&found.trade.offer)?;
        self.ledger.stand(found.index)?;
        Ok(Deal::Done)
    }
}
