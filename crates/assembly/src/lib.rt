// The text of a tape: one line to one record.
#![tactic(auto)]

pub mod faults;
mod fields;
mod kinds;
mod lines;
mod numbers;
mod tapes;
#[cfg(test)]
mod tests;

pub use faults::LineFault;
pub use lines::entry_of;
pub use tapes::append;
