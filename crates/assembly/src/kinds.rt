ghost use Rattle.std.specs.Prelude.{[], ◌∷◌, map};
ghost use Rattle.assembly.specs.Kinds.{month_limits, amount_limits, offer_limits, confirm_limits, word_limits, load_limits, month_figures, amount_figures, offer_figures, confirm_figures, load_figures};
ghost use Rattle.assembly.specs.Lines.{FieldsOf};

use crate::faults::LineFault;
use crate::numbers::{four, one, two};
use book::Offer;
use figures::{Factor, Hour, Kw, Load, Price, Product, Seat, TermFigures, TradeNumber, Zone};
use records::{Amount, Confirmation, LoadSet, MonthSet};

// What the fields after each letter say.

pub(crate) fn month(fields: &[&[u8]]) -> Result<MonthSet, LineFault>
    ensures { FieldsOf month_limits month_figures (map (λ f. f.now) fields.now) result }
{
    let [seats, zones, hours, tmnsr, tmor, capacity, factor] = fields else {
        return Err(LineFault::Count(7));
    };
    Ok(MonthSet {
        seats: one(1, seats)?,
        zones: one(2, zones)?,
        terms: TermFigures {
            hours: two(3, hours)?,
            tmnsr: Price(four(4, tmnsr)?),
            tmor: Price(four(5, tmor)?),
            capacity: Price(four(6, capacity)?),
            factor: Factor(two(7, factor)?),
        },
    })
}

pub(crate) fn amount(fields: &[&[u8]]) -> Result<Amount, LineFault>
    ensures { FieldsOf amount_limits amount_figures (map (λ f. f.now) fields.now) result }
{
    let [seat, zone, product, kw] = fields else {
        return Err(LineFault::Count(4));
    };
    Ok(Amount {
        seat: Seat(one(1, seat)?),
        zone: Zone(one(2, zone)?),
        product: Product(one(3, product)?),
        kw: Kw(four(4, kw)?),
    })
}

pub(crate) fn offer(fields: &[&[u8]]) -> Result<Offer, LineFault>
    ensures { FieldsOf offer_limits offer_figures (map (λ f. f.now) fields.now) result }
{
    let [number, seller, buyer, zone, product, first, last, kw] = fields else {
        return Err(LineFault::Count(8));
    };
    Ok(Offer {
        number: TradeNumber(two(1, number)?),
        seller: Seat(one(2, seller)?),
        buyer: Seat(one(3, buyer)?),
        zone: Zone(one(4, zone)?),
        product: Product(one(5, product)?),
        first: Hour(two(6, first)?),
        last: Hour(two(7, last)?),
        kw: Kw(four(8, kw)?),
    })
}

pub(crate) fn confirmation(fields: &[&[u8]]) -> Result<Confirmation, LineFault>
    ensures { FieldsOf confirm_limits confirm_figures (map (λ f. f.now) fields.now) result }
{
    let [number, seat] = fields else {
        return Err(LineFault::Count(2));
    };
    Ok(Confirmation {
        number: TradeNumber(two(1, number)?),
        seat: Seat(one(2, seat)?),
    })
}

pub(crate) fn number(fields: &[&[u8]]) -> Result<TradeNumber, LineFault>
    ensures { FieldsOf word_limits (λ n. n.0 ∷ []) (map (λ f. f.now) fields.now) result }
{
    let [number] = fields else {
        return Err(LineFault::Count(1));
    };
    Ok(TradeNumber(two(1, number)?))
}

pub(crate) fn hour(fields: &[&[u8]]) -> Result<Hour, LineFault>
    ensures { FieldsOf word_limits (λ h. h.0 ∷ []) (map (λ f. f.now) fields.now) result }
{
    let [hour] = fields else {
        return Err(LineFault::Count(1));
    };
    Ok(Hour(two(1, hour)?))
}

pub(crate) fn load(fields: &[&[u8]]) -> Result<LoadSet, LineFault>
    ensures { FieldsOf load_limits load_figures (map (λ f. f.now) fields.now) result }
{
    let [seat, load] = fields else {
        return Err(LineFault::Count(2));
    };
    Ok(LoadSet {
        seat: Seat(one(1, seat)?),
        load: Load(four(2, load)?),
    })
}

// Of an E and of a B nothing is said.
pub(crate) fn nothing(fields: &[&[u8]]) -> Result<(), LineFault>
    ensures { FieldsOf [] (λ _. []) (map (λ f. f.now) fields.now) result }
{
    if fields.is_empty() {
        Ok(())
    } else {
        Err(LineFault::Count(0))
    }
}
