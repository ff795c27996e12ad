ghost use Rattle.std.specs.Prelude.{◌≡◌, ◌*◌, ◌^◌, ◌<◌, false, pos, IfOk, unsigned_abs};
ghost use Rattle.figures.specs.Grounds.{Judged};
ghost use Rattle.figures.specs.Rounding.{rounded, Nearest};
ghost use Rattle.figures.specs.Prices.{beyond, term_grounds, ground_of, net_of, credit_of, penalty_of};

use crate::grounds::{Ground, Layer};
use crate::units::{Cents, Factor, Kw, MAX_HOURS, Price, Product};

// The highest price, in cents for a MW and month.
pub const MAX_PRICE: Price = Price(2_000_000);
// The highest penalty factor, in hundredths.
pub const MAX_FACTOR: Factor = Factor(500);

// The terms of a month as they are given, within their limits or not.
#[derive(Clone, Copy, PartialEq, Eq, Debug)]
pub struct TermFigures {
    // How many delivery hours the month has.
    pub hours: u16,
    // The clearing price of product 0.
    pub tmnsr: Price,
    // The clearing price of product 1.
    pub tmor: Price,
    pub capacity: Price,
    pub factor: Factor,
}

#[derive(Clone, Copy, PartialEq, Eq, Debug)]
pub enum TermsFault {
    // A term lies beyond its limit.
    Beyond,
}

impl From<TermsFault> for Ground {
    ghost from_gives = { λ e g. g ≡ ground_of e };

    fn from(fault: TermsFault) -> Ground {
        match fault {
            TermsFault::Beyond => Ground {
                number: 5,
                layer: Layer::Month,
                place: 0,
            },
        }
    }
}

// The terms of a month, each within its limit.
#[derive(Clone, Copy)]
pub struct Terms {
    figures: TermFigures,
    ghost within: { beyond figures ≡ false },
}

// n ÷ d to the nearest whole number, an exact half upward.
fn half_up(n: u64, d: u64) -> u64
    requires some { 0 < d }
    requires amount { n < 2 ^ 62 }
    requires divisor { d < 2 ^ 32 }
    ensures { result ≡ rounded n d }
{
    (2 * n + d) / (2 * d)
}

// n ÷ d cents, rounded so.
fn rounded_cents(n: u64, d: u64) -> Cents
    requires some { 0 < d }
    requires amount { n < 2 ^ 62 }
    requires divisor { d < 2 ^ 32 }
    ensures value { result.0 ≡ pos (rounded n d) }
    ensures nearest { Nearest n d (unsigned_abs result.0) }
{
    // An `as` that is proved to fit: `try_from` would add an error that cannot be.
    Cents(half_up(n, d) as i64)
}

impl Terms {
    pub fn new(figures: TermFigures) -> Result<Terms, TermsFault>
        ensures judged { Judged (term_grounds figures) result }
        ensures made { IfOk result (λ t. t.figures ≡ figures) }
    {
        if figures.hours == 0 || figures.hours > MAX_HOURS {
            return Err(TermsFault::Beyond);
        }
        if figures.tmnsr > MAX_PRICE || figures.tmor > MAX_PRICE || figures.capacity > MAX_PRICE {
            return Err(TermsFault::Beyond);
        }
        if figures.factor > MAX_FACTOR {
            return Err(TermsFault::Beyond);
        }
        Ok(Terms { figures })
    }

    // The clearing price less the capacity price, never below 0. A product that is neither 0 nor 1 has no price.
    pub fn net(&self, product: Product) -> Price
        ensures { result.0 ≡ net_of self.now.figures product.0 }
    {
        let clearing = match product {
            Product::TMNSR => self.figures.tmnsr.0,
            Product::TMOR => self.figures.tmor.0,
            _ => 0,
        };
        Price(clearing.saturating_sub(self.figures.capacity.0))
    }

    // What `kw` kilowatts of a product earn in one hour.
    pub fn credit(&self, product: Product, kw: Kw) -> Cents
        ensures value { result.0 ≡ pos (credit_of self.now.figures product.0 kw.0) }
        ensures nearest { Nearest (kw.0 * net_of self.now.figures product.0) (1000 * self.now.figures.hours) (unsigned_abs result.0) }
    {
        let divisor = 1000 * u64::from(self.figures.hours);
        let amount = u64::from(kw.0) * u64::from(self.net(product).0);
        rounded_cents(amount, divisor)
    }

    // What `failed` kilowatts of a product cost in one hour.
    pub fn penalty(&self, product: Product, failed: Kw) -> Cents
        ensures value { result.0 ≡ pos (penalty_of self.now.figures product.0 failed.0) }
        ensures nearest { Nearest (failed.0 * net_of self.now.figures product.0 * self.now.figures.factor.0) (100000 * self.now.figures.hours) (unsigned_abs result.0) }
    {
        let divisor = 100_000 * u64::from(self.figures.hours);
        let amount = u64::from(failed.0)
            * u64::from(self.net(product).0)
            * u64::from(self.figures.factor.0);
        rounded_cents(amount, divisor)
    }
}
