// The records of a tape, read and written, and the text of a statement.
#![tactic(auto)]

pub mod bodies;
pub mod entries;
pub mod faults;
pub mod reading;
pub mod tapes;
pub mod text;
pub mod theorems;
pub mod writing;

pub use entries::{Amount, Confirmation, Entry, LoadSet, MonthSet};
pub use faults::TapeFault;
pub use reading::{Body, Record, read};
pub use tapes::{Reading, read_all};
pub use text::{write_abandoned, write_denial, write_figure, write_letter, write_line};
pub use theorems::{figure_back, written_back};

#[cfg(test)]
mod tests;
