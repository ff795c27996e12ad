// The trade book: owners hand obligations to one another. It lies on any sheet and is itself a sheet.
#![tactic(auto)]

pub mod books;
pub mod cancels;
pub mod confirms;
pub mod cover;
pub mod deals;
pub mod faults;
pub mod finds;
pub mod kept;
pub mod ledgers;
pub mod offers;
pub mod trades;

pub use deals::Deal;
pub use faults::BookFault;
pub use kept::{Book, Pages};
pub use ledgers::MAX_TRADES;
pub use trades::{Offer, Trade, TradeEvent, TradeState, Turn};
