// Division of a total among seats by their loads: the rules, and what every rule owes.
#![tactic(auto)]

pub mod cut;
pub mod remainder;
pub mod rules;
pub mod signed;

pub use cut::RunningCut;
pub use figures::MAX_SEATS;
pub use remainder::{LargestRemainder, largest_first};
pub use rules::{Division, DivisionFault, DivisionRule, MAX_LOAD, MAX_TOTAL};
pub use signed::divide_signed;
