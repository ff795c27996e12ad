// The units of the settlement, each a type of its own, so that none is taken for another.
ghost use Rattle.std.specs.Prelude.{Some};
ghost use Rattle.std.specs.Fmt.{signed_decimal};

use std::fmt;

// The most seats a month has.
pub const MAX_SEATS: usize = 16;
// The most zones a month has.
pub const MAX_ZONES: u8 = 4;
// How many products there are.
pub const PRODUCTS: u8 = 2;

// The most delivery hours a month has.
pub const MAX_HOURS: u16 = 744;

// Whole kilowatts of capability.
#[derive(Clone, Copy, PartialEq, Eq, PartialOrd, Ord, Debug)]
pub struct Kw(pub u32);

// Whole cents; below zero where money goes the other way.
#[derive(Clone, Copy, PartialEq, Eq, PartialOrd, Ord, Debug)]
pub struct Cents(pub i64);

// The figure, with no unit, as statements have it.
impl fmt::Display for Cents {
    ghost output = { λ c. Some (signed_decimal c.0) };

    fn fmt<W: fmt::Write>(&self, f: &mut fmt::Formatter<W>) -> fmt::Result {
        write!(f, "{}", self.0)
    }
}

// A price in cents for one MW and month.
#[derive(Clone, Copy, PartialEq, Eq, PartialOrd, Ord, Debug)]
pub struct Price(pub u32);

// A penalty factor, in hundredths.
#[derive(Clone, Copy, PartialEq, Eq, PartialOrd, Ord, Debug)]
pub struct Factor(pub u16);

// A load in tenths of a MWh.
#[derive(Clone, Copy, PartialEq, Eq, PartialOrd, Ord, Debug)]
pub struct Load(pub u32);

// The number of a seat (a market participant), from 0.
#[derive(Clone, Copy, PartialEq, Eq, Debug)]
pub struct Seat(pub u8);

// The number of a reserve zone, from 0.
#[derive(Clone, Copy, PartialEq, Eq, Debug)]
pub struct Zone(pub u8);

// The number of a product. One beyond the two can be named: sheets and books refuse it, and it has no price.
#[derive(Clone, Copy, PartialEq, Eq, Debug)]
pub struct Product(pub u8);

impl Product {
    // Ten-minute non-spinning reserve.
    pub const TMNSR: Product = Product(0);
    // Thirty-minute operating reserve.
    pub const TMOR: Product = Product(1);
}

// The number of a delivery hour in the month, from 0.
#[derive(Clone, Copy, PartialEq, Eq, PartialOrd, Ord, Debug)]
pub struct Hour(pub u16);

// The number by which a trade is known.
#[derive(Clone, Copy, PartialEq, Eq, Debug)]
pub struct TradeNumber(pub u16);
