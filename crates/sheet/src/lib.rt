// Sheets: what each seat owes in each hour. One interface, and the two sheets that come from outside.
#![tactic(auto)]

pub mod awards;
pub mod columns;
pub mod faults;
pub mod hourly;
pub mod places;
pub mod sheets;
pub mod size;

pub use awards::AwardSheet;
pub use columns::Column;
pub use faults::SheetFault;
pub use hourly::HourlySheet;
pub use places::Place;
pub use sheets::{MAX_AWARD, MAX_KW, Sheet};
pub use size::SheetSize;
