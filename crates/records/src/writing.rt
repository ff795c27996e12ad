ghost use Rattle.std.specs.Prelude.{◌≡◌, ◌∷◌};
ghost use Rattle.records.specs.Layout.{two, month_body, amount_body, offer_body, confirm_body, load_body, bytes_of};
ghost use Rattle.records.specs.Writing.{Written};

use crate::entries::{Amount, Confirmation, Entry, LoadSet, MonthSet};
use book::Offer;

// Puts bytes into a column at a place, and answers the place after them; where they do not fit, it writes nothing.
pub(crate) fn put(column: &mut [u8], at: usize, bytes: &[u8]) -> Option<usize>
    ensures { Written bytes.now at column.old result column.new }
{
    let end = at.checked_add(bytes.len())?;
    if end > column.len() {
        return None;
    }
    column[at..end].copy_from_slice(bytes);
    Some(end)
}

fn month(m: &MonthSet) -> [u8; 19]
    ensures { result ≡ 77 ∷ month_body m.now }
{
    let [d1, d0] = m.terms.hours.to_be_bytes();
    let [a3, a2, a1, a0] = m.terms.tmnsr.0.to_be_bytes();
    let [b3, b2, b1, b0] = m.terms.tmor.0.to_be_bytes();
    let [c3, c2, c1, c0] = m.terms.capacity.0.to_be_bytes();
    let [f1, f0] = m.terms.factor.0.to_be_bytes();
    [
        b'M', m.seats, m.zones, d1, d0, a3, a2, a1, a0, b3, b2, b1, b0, c3, c2, c1, c0, f1, f0,
    ]
}

fn amount(kind: u8, a: &Amount) -> [u8; 8]
    ensures { result ≡ kind ∷ amount_body a.now }
{
    let [k3, k2, k1, k0] = a.kw.0.to_be_bytes();
    [kind, a.seat.0, a.zone.0, a.product.0, k3, k2, k1, k0]
}

fn offer(o: &Offer) -> [u8; 15]
    ensures { result ≡ 79 ∷ offer_body o.now }
{
    let [n1, n0] = o.number.0.to_be_bytes();
    let [a1, a0] = o.first.0.to_be_bytes();
    let [z1, z0] = o.last.0.to_be_bytes();
    let [k3, k2, k1, k0] = o.kw.0.to_be_bytes();
    [
        b'O',
        n1,
        n0,
        o.seller.0,
        o.buyer.0,
        o.zone.0,
        o.product.0,
        a1,
        a0,
        z1,
        z0,
        k3,
        k2,
        k1,
        k0,
    ]
}

fn confirmation(c: &Confirmation) -> [u8; 4]
    ensures { result ≡ 67 ∷ confirm_body c.now }
{
    let [n1, n0] = c.number.0.to_be_bytes();
    [b'C', n1, n0, c.seat.0]
}

fn word(kind: u8, n: u16) -> [u8; 3]
    ensures { result ≡ kind ∷ two n }
{
    let [n1, n0] = n.to_be_bytes();
    [kind, n1, n0]
}

fn load(l: &LoadSet) -> [u8; 6]
    ensures { result ≡ 76 ∷ load_body l.now }
{
    let [l3, l2, l1, l0] = l.load.0.to_be_bytes();
    [b'L', l.seat.0, l3, l2, l1, l0]
}

impl Entry {
    // Writes its record into a column at a place, and answers the place after it; where it does not fit, it writes nothing.
    pub fn write(&self, column: &mut [u8], at: usize) -> Option<usize>
        ensures { Written (bytes_of self.now) at column.old result column.new }
    {
        match self {
            Entry::Month(m) => put(column, at, &month(m)),
            Entry::Award(a) => put(column, at, &amount(b'A', a)),
            Entry::Offer(o) => put(column, at, &offer(o)),
            Entry::Confirm(c) => put(column, at, &confirmation(c)),
            Entry::Cancel(n) => put(column, at, &word(b'X', n.0)),
            Entry::Open(h) => put(column, at, &word(b'H', h.0)),
            Entry::Tell(a) => put(column, at, &amount(b'T', a)),
            Entry::Load(l) => put(column, at, &load(l)),
            Entry::Close => put(column, at, b"E"),
            Entry::Abandon => put(column, at, b"B"),
        }
    }
}
