// Units, grounds and prices: the figures that everything else is reckoned in.
#![tactic(auto)]

pub mod grounds;
pub mod lines;
pub mod prices;
pub mod units;

pub use grounds::{Ground, Layer};
pub use lines::StatementLine;
pub use prices::{MAX_FACTOR, MAX_PRICE, TermFigures, Terms, TermsFault};
pub use units::{
    Cents, Factor, Hour, Kw, Load, MAX_HOURS, MAX_SEATS, MAX_ZONES, PRODUCTS, Price, Product, Seat,
    TradeNumber, Zone,
};
