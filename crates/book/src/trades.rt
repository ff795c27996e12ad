ghost use Rattle.std.specs.Prelude.{◌≡◌, ◌≤◌};
ghost use Rattle.book.specs.Trades.{turn_of, after_turn, reaches, stands, buys, sells};

use crate::faults::BookFault;
use figures::{Hour, Kw, Product, Seat, TradeNumber, Zone};
use sheet::Place;

// What a seller offers a buyer: kilowatts of one zone and product, from the first hour to the last, both included.
#[derive(Clone, Copy, PartialEq, Eq, Debug)]
pub struct Offer {
    pub number: TradeNumber,
    pub seller: Seat,
    pub buyer: Seat,
    pub zone: Zone,
    pub product: Product,
    pub first: Hour,
    pub last: Hour,
    pub kw: Kw,
}

// A trade is offered, then confirmed; it stands while it is confirmed.
#[derive(Clone, Copy, PartialEq, Eq, Debug)]
pub enum TradeState {
    Offered,
    Confirmed,
}

// What can happen to a trade.
#[derive(Clone, Copy)]
pub enum TradeEvent {
    Confirm,
    Cancel,
}

// What an event is to a trade in its state.
#[derive(Clone, Copy)]
pub enum Turn {
    // It is confirmed, and stands.
    Stands,
    // It leaves the book, and had moved nothing.
    Withdrawn,
    // It leaves the book, and what it moved goes back.
    Undone,
}

// A trade as a book keeps it: what was offered, and its state.
#[derive(Clone, Copy)]
pub struct Trade {
    pub offer: Offer,
    pub state: TradeState,
}

// What trades bring to a seat and take from it, in kW.
#[derive(Clone, Copy)]
pub(crate) struct Moved {
    pub(crate) bought: u32,
    pub(crate) sold: u32,
}

impl Offer {
    // Whether it is of that zone and product, and covers that hour. Every cell of a book asks this of every standing trade, so the
    // tests are made one by one and then joined: a chain of them would be a branch for each.
    fn reaches(&self, place: Place) -> bool
        ensures { result ≡ reaches self.now place }
    {
        let zone = self.zone == place.zone;
        let product = self.product == place.product;
        let begun = self.first <= place.hour;
        let lasts = place.hour <= self.last;
        zone && product && begun && lasts
    }
}

impl Trade {
    // Lets the event happen to the trade, or says why it cannot. State and event are matched together: that is what a trade is.
    pub fn turn(&mut self, event: TradeEvent) -> Result<Turn, BookFault>
        ensures turn { result ≡ turn_of self.old.state event }
        ensures after { self.new ≡ after_turn self.old event }
    {
        match (self.state, event) {
            (TradeState::Offered, TradeEvent::Confirm) => {
                self.state = TradeState::Confirmed;
                Ok(Turn::Stands)
            }
            (TradeState::Confirmed, TradeEvent::Confirm) => Err(BookFault::NotConfirmable),
            (TradeState::Offered, TradeEvent::Cancel) => Ok(Turn::Withdrawn),
            (TradeState::Confirmed, TradeEvent::Cancel) => Ok(Turn::Undone),
        }
    }

    // Whether it is confirmed and reaches that place.
    fn stands_at(&self, place: Place) -> bool
        ensures { result ≡ stands place self.now }
    {
        self.state == TradeState::Confirmed && self.offer.reaches(place)
    }

    // What it moves for a seat there.
    pub(crate) fn moved(&self, seat: Seat, place: Place) -> Moved
        ensures bought { result.bought ≡ buys seat.0 place self.now }
        ensures sold { result.sold ≡ sells seat.0 place self.now }
        ensures most { (result.bought ≤ self.now.offer.kw.0) × (result.sold ≤ self.now.offer.kw.0) }
    {
        let offer = self.offer;
        let kw = if self.stands_at(place) { offer.kw.0 } else { 0 };
        let share = |party: Seat| if party == seat { kw } else { 0 };
        Moved {
            bought: share(offer.buyer),
            sold: share(offer.seller),
        }
    }
}
