use crate::trades::Trade;

// A trade of a book, and its index there.
#[derive(Clone, Copy)]
pub(crate) struct Found {
    pub(crate) index: usize,
    pub(crate) trade: Trade,
}
