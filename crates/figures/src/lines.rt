use crate::units::{Cents, Hour, Seat};

// A line of a month's statement: what an hour brought and cost a seat.
#[derive(Clone, Copy, PartialEq, Eq, Debug)]
pub struct StatementLine {
    pub hour: Hour,
    pub seat: Seat,
    pub credits: Cents,
    pub penalties: Cents,
    pub charge: Cents,
}
