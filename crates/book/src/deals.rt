// How a call that a layer above may hold back has ended, where it was not denied. Held is no fault, since the book denies nothing:
// the layer above makes a ground of its own of it.
#[derive(Clone, Copy, PartialEq, Eq, Debug)]
pub enum Deal {
    Done,
    // The trade begins before the hour that the layer above gave, and the book is as it was.
    Held,
}
