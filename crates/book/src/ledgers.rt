ghost use Rattle.std.specs.Prelude.{◌≡◌, ◌*◌, ◌<◌, ◌≤◌, false, [], length, IfOk, nat_le, vec_len, vec_capacity, slice_index_or, slice_set};
ghost use Rattle.std.specs.List.{position, remove};
ghost use Rattle.figures.specs.Grounds.{Judged};
ghost use Rattle.sheet.specs.Limits.{max_kw};
ghost use Rattle.book.specs.Limits.{max_trades};
ghost use Rattle.book.specs.declared.trades.TradeEvent.TheVariants.{Confirm};
ghost use Rattle.book.specs.Trades.{Each, Fit, Apart, no_trade, confirmed, turn_of, bought_at, sold_at};
ghost use Rattle.book.specs.Deals.{is_number, in_book, known_grounds, offered, IsFound};

use crate::faults::BookFault;
use crate::finds::Found;
use crate::trades::{Moved, Offer, Trade, TradeEvent, TradeState, Turn};
use figures::{Seat, TradeNumber};
use sheet::Place;
use std::alloc::{AllocError, Global};

// The most trades that a book holds.
pub const MAX_TRADES: usize = 32;

// The trades of a book, in the order in which they were offered. A list and no map by number, since that order shows, and since
// its memory is got once.
#[derive(Drop)]
pub struct Ledger {
    pub(crate) trades: Vec<Trade>,
    ghost few: { vec_len trades ≤ max_trades },
    ghost room: { max_trades ≤ vec_capacity trades },
    ghost fit: { Each (λ r. Fit r.offer) trades.items },
    ghost apart: { Apart trades.items },
}

impl Ledger {
    // An empty one, with the memory for all its trades.
    pub(crate) fn new(heap: Global) -> Result<Ledger, AllocError>
        ensures { IfOk result (λ x. x.trades.items ≡ []) }
    {
        Ok(Ledger {
            trades: Vec::with_capacity(heap, MAX_TRADES)?,
        })
    }

    // The index of the trade of that number.
    pub(crate) fn index_of(&self, number: TradeNumber) -> Option<usize>
        ensures { result ≡ position (is_number number.0) self.now.trades.items }
    {
        self.trades
            .iter()
            .position(|trade| trade.offer.number == number)
    }

    // The trade of that number.
    pub(crate) fn find(&self, number: TradeNumber) -> Result<Found, BookFault>
        ensures judged { Judged (known_grounds self.now.trades.items number.0) result }
        ensures found { IfOk result (λ f. IsFound self.now.trades.items number.0 f) }
    {
        let index = self.index_of(number).ok_or(BookFault::NoTrade)?;
        Ok(Found {
            index,
            trade: self.trades[index],
        })
    }

    // Whether it holds as many trades as it can.
    pub(crate) fn is_full(&self) -> bool
        ensures { result ≡ nat_le max_trades (vec_len self.now.trades) }
    {
        self.trades.len() >= MAX_TRADES
    }

    // Writes the offer behind the other trades.
    pub(crate) fn enter(&mut self, offer: Offer)
        requires fit { Fit offer }
        requires new { in_book self.old.trades.items offer.number.0 ≡ false }
        requires space { vec_len self.old.trades < max_trades }
        ensures { self.new.trades.items ≡ offered self.old.trades.items offer }
    {
        self.trades.push_reserved(Trade {
            offer,
            state: TradeState::Offered,
        });
    }

    // Lets the confirm happen to a trade, which then stands. An index, since a struct that lends the trade out of the ledger could not
    // keep what the ledger's type says.
    pub(crate) fn stand(&mut self, index: usize) -> Result<Turn, BookFault>
        requires here { index < length self.old.trades.items }
        ensures turn { result ≡ turn_of (slice_index_or self.old.trades.items index no_trade).state Confirm }
        ensures trades { self.new.trades.items ≡ slice_set self.old.trades.items index (confirmed (slice_index_or self.old.trades.items index no_trade)) }
    {
        self.trades[index].turn(TradeEvent::Confirm)
    }

    // Takes a trade out, by its index again.
    pub(crate) fn strike(&mut self, index: usize)
        requires here { index < length self.old.trades.items }
        ensures { self.new.trades.items ≡ remove self.old.trades.items index }
    {
        self.trades.remove(index);
    }

    // What the standing trades bring to a seat and take from it at one place.
    pub(crate) fn moved(&self, seat: Seat, place: Place) -> Moved
        ensures bought { result.bought ≡ bought_at seat.0 place self.now.trades.items }
        ensures sold { result.sold ≡ sold_at seat.0 place self.now.trades.items }
        ensures most { result.bought ≤ max_trades * max_kw }
    {
        let mut all = Moved { bought: 0, sold: 0 };
        for trade in self.trades() {
            let one = trade.moved(seat, place);
            all.bought += one.bought;
            all.sold += one.sold;
        }
        all
    }

    pub(crate) fn trades(&self) -> &[Trade]
        ensures { result.now ≡ self.now.trades.items }
    {
        &self.trades
    }
}
