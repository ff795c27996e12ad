use book::Offer;
use figures::{Hour, Kw, Load, Product, Seat, TermFigures, TradeNumber, Zone};

// What an M says: how many seats and zones the month has, and its terms.
#[derive(Clone, Copy, PartialEq, Eq, Debug)]
pub struct MonthSet {
    pub seats: u8,
    pub zones: u8,
    pub terms: TermFigures,
}

// What an A or a T says: so many kW of a seat, zone and product.
#[derive(Clone, Copy, PartialEq, Eq, Debug)]
pub struct Amount {
    pub seat: Seat,
    pub zone: Zone,
    pub product: Product,
    pub kw: Kw,
}

// What a C says: which trade is confirmed, and by whom.
#[derive(Clone, Copy, PartialEq, Eq, Debug)]
pub struct Confirmation {
    pub number: TradeNumber,
    pub seat: Seat,
}

// What an L says: a seat's load for the open hour.
#[derive(Clone, Copy, PartialEq, Eq, Debug)]
pub struct LoadSet {
    pub seat: Seat,
    pub load: Load,
}

// What a record says, by its kind.
#[derive(Clone, Copy, PartialEq, Eq, Debug)]
pub enum Entry {
    Month(MonthSet),
    Award(Amount),
    Offer(Offer),
    Confirm(Confirmation),
    Cancel(TradeNumber),
    Open(Hour),
    Tell(Amount),
    Load(LoadSet),
    Close,
    Abandon,
}
