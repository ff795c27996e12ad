// An hour's bill as a line of text: a total and the loads read, and what each rule answers to them written.
#![tactic(auto)]

mod bills;
pub mod fields;
mod text;

pub use bills::answers;
pub use fields::LineFault;
