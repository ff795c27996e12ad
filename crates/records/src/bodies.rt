ghost use Rattle.std.specs.Prelude.{◌≡◌, ◌+◌, ◌∷◌, length};
ghost use Rattle.records.specs.Layout.{two, four, month_body, amount_body, offer_body, confirm_body, load_body, bytes_of};
ghost use Rattle.records.specs.Reading.{letter_at, body_at};

use crate::entries::{Amount, Confirmation, Entry, LoadSet, MonthSet};
use crate::reading::Record;
use book::Offer;
use figures::{Factor, Hour, Kw, Load, Price, Product, Seat, TermFigures, TradeNumber, Zone};

// A number of two bytes, the high byte first.
fn half(bytes: [u8; 2]) -> u16
    ensures { two result ≡ bytes }
{
    u16::from_be_bytes(bytes)
}

// A number of four bytes, the high byte first.
fn word(bytes: [u8; 4]) -> u32
    ensures { four result ≡ bytes }
{
    u32::from_be_bytes(bytes)
}

// What each body says.

fn month(body: &[u8; 18]) -> MonthSet
    ensures { month_body result ≡ body.now }
{
    let [
        seats,
        zones,
        d1,
        d0,
        a3,
        a2,
        a1,
        a0,
        b3,
        b2,
        b1,
        b0,
        c3,
        c2,
        c1,
        c0,
        f1,
        f0,
    ] = *body;
    MonthSet {
        seats,
        zones,
        terms: TermFigures {
            hours: half([d1, d0]),
            tmnsr: Price(word([a3, a2, a1, a0])),
            tmor: Price(word([b3, b2, b1, b0])),
            capacity: Price(word([c3, c2, c1, c0])),
            factor: Factor(half([f1, f0])),
        },
    }
}

fn amount(body: &[u8; 7]) -> Amount
    ensures { amount_body result ≡ body.now }
{
    let [seat, zone, product, k3, k2, k1, k0] = *body;
    Amount {
        seat: Seat(seat),
        zone: Zone(zone),
        product: Product(product),
        kw: Kw(word([k3, k2, k1, k0])),
    }
}

fn offer(body: &[u8; 14]) -> Offer
    ensures { offer_body result ≡ body.now }
{
    let [
        n1,
        n0,
        seller,
        buyer,
        zone,
        product,
        a1,
        a0,
        z1,
        z0,
        k3,
        k2,
        k1,
        k0,
    ] = *body;
    Offer {
        number: TradeNumber(half([n1, n0])),
        seller: Seat(seller),
        buyer: Seat(buyer),
        zone: Zone(zone),
        product: Product(product),
        first: Hour(half([a1, a0])),
        last: Hour(half([z1, z0])),
        kw: Kw(word([k3, k2, k1, k0])),
    }
}

fn confirmation(body: &[u8; 3]) -> Confirmation
    ensures { confirm_body result ≡ body.now }
{
    let [n1, n0, seat] = *body;
    Confirmation {
        number: TradeNumber(half([n1, n0])),
        seat: Seat(seat),
    }
}

fn number(body: &[u8; 2]) -> TradeNumber
    ensures { two result.0 ≡ body.now }
{
    TradeNumber(half(*body))
}

fn hour(body: &[u8; 2]) -> Hour
    ensures { two result.0 ≡ body.now }
{
    Hour(half(*body))
}

fn load(body: &[u8; 5]) -> LoadSet
    ensures { load_body result ≡ body.now }
{
    let [seat, l3, l2, l1, l0] = *body;
    LoadSet {
        seat: Seat(seat),
        load: Load(word([l3, l2, l1, l0])),
    }
}

impl Record<'_> {
    // What the record says.
    pub fn entry(&self) -> Entry
        ensures { bytes_of result ≡ letter_at self.now ∷ body_at self.now }
    {
        match self {
            Record::Month(body) => Entry::Month(month(body.bytes)),
            Record::Award(body) => Entry::Award(amount(body.bytes)),
            Record::Offer(body) => Entry::Offer(offer(body.bytes)),
            Record::Confirm(body) => Entry::Confirm(confirmation(body.bytes)),
            Record::Cancel(body) => Entry::Cancel(number(body.bytes)),
            Record::Open(body) => Entry::Open(hour(body.bytes)),
            Record::Tell(body) => Entry::Tell(amount(body.bytes)),
            Record::Load(body) => Entry::Load(load(body.bytes)),
            Record::Close(_) => Entry::Close,
            Record::Abandon(_) => Entry::Abandon,
        }
    }
}
