use figures::{Hour, Product, Zone};

// Where a seat's obligation lies: a zone, a product and an hour.
#[derive(Clone, Copy, PartialEq, Eq, Debug)]
pub struct Place {
    pub zone: Zone,
    pub product: Product,
    pub hour: Hour,
}
