ghost use Rattle.std.specs.Prelude.{◌≡◌, ℕ, true, false, List, length, map, take, pos, IfOk, sum, MatchResult, unsigned_abs};
ghost use Rattle.figures.specs.Grounds.{Judged};
ghost use Rattle.division.specs.Columns.{tenths, cents_of};
ghost use Rattle.division.specs.Rules.{heavy, unfit, rule_grounds, ground_of, RuleDivided, Fair, Lawful};
ghost use Rattle.division.specs.declared.rules.DivisionFault.TheVariants.{Beyond};

use figures::{Cents, Ground, Layer, Load, MAX_SEATS};

// The largest total that a rule divides.
pub const MAX_TOTAL: Cents = Cents(1_500_000_000_000);
// The largest load of a seat.
pub const MAX_LOAD: Load = Load(300_000);

#[derive(Clone, Copy, PartialEq, Eq, Debug)]
pub enum DivisionFault {
    // A figure is beyond its limit, or a column has the wrong length.
    Beyond,
    // Every load is 0.
    NoLoad,
}

impl From<DivisionFault> for Ground {
    ghost from_gives = { λ e g. g ≡ ground_of e };

    fn from(fault: DivisionFault) -> Ground {
        let number = match fault {
            DivisionFault::Beyond => 21,
            DivisionFault::NoLoad => 22,
        };
        Ground {
            number,
            layer: Layer::Rule,
            place: 0,
        }
    }
}

// A way to divide a total of cents among seats by their loads.
pub trait DivisionRule {
    // The letter that heads every statement made by the rule.
    const LETTER: char;

    ghost LETTER: { ℕ };

    // What the rule means: the shares of a total over loads.
    ghost shares: { Self → ℕ → List ℕ → List ℕ };

    // The share of each seat, in a column with room for as many seats as there can be, since a division wants no memory. The
    // rules fill it over the loads: with `array::from_fn` each place would have to ask whether there is a load.
    fn share_out(&self, division: &Division<'_>) -> [Cents; MAX_SEATS]
        ensures { take (length division.now.loads.now) result ≡ cents_of (map pos (shares self.now division.now.total (tenths division.now.loads.now))) };

    // Writes one share a seat, or denies and leaves the column as it was.
    fn divide(&self, total: Cents, loads: &[Load], out: &mut [Cents]) -> Result<(), DivisionFault>
        ensures { RuleDivided (shares self.now) total.0 (tenths loads.now) out.old result out.new }
    {
        let division = Division::new(total, loads, out.len())?;
        out.copy_from_slice(&self.share_out(&division)[..loads.len()]);
        Ok(())
    }

    ghost keeps: { (rule : Self) (t : ℕ) (ls : List ℕ) → Fair t ls → Lawful t ls (shares rule t ls) };
}

// A total and the loads that share it, each within its limit.
#[derive(Clone, Copy)]
pub struct Division<'a> {
    pub total: u64,
    pub loads: &'a [Load],
    // All loads together.
    pub all: u64,
    pub ghost fair: { Fair total (tenths loads.now) },
    pub ghost added: { all ≡ sum (tenths loads.now) },
}

impl<'a> Division<'a> {
    // Makes the checks that every rule makes first, for a share column of length `room`.
    pub fn new(total: Cents, loads: &'a [Load], room: usize) -> Result<Division<'a>, DivisionFault>
        ensures judged { Judged (rule_grounds total.0 (tenths loads.now) room) result }
        ensures made { IfOk result (λ d. (d.total ≡ unsigned_abs total.0) × (d.loads.now ≡ loads.now) × (room ≡ length loads.now)) }
    {
        if !(Cents(0)..=MAX_TOTAL).contains(&total) {
            return Err(DivisionFault::Beyond);
        }
        let all = sum_if_fit(loads, room)?;
        if all == 0 {
            return Err(DivisionFault::NoLoad);
        }
        Ok(Division {
            total: total.0.unsigned_abs(),
            loads,
            all,
        })
    }
}

// Some load is above its limit.
fn any_heavy(loads: &[Load]) -> bool
    ensures { result ≡ heavy (tenths loads.now) }
{
    loads.iter().any(|load| *load > MAX_LOAD)
}

// The sum of the loads, where they and a share column of length `room` are what a division takes.
pub(crate) fn sum_if_fit(loads: &[Load], room: usize) -> Result<u64, DivisionFault>
    ensures { MatchResult result (λ n. (unfit (tenths loads.now) room ≡ false) × (n ≡ sum (tenths loads.now))) (λ e. (unfit (tenths loads.now) room ≡ true) × (e ≡ Beyond)) }
{
    if loads.is_empty() || loads.len() > MAX_SEATS || any_heavy(loads) || room != loads.len() {
        return Err(DivisionFault::Beyond);
    }
    Ok(loads.iter().map(|load| u64::from(load.0)).sum())
}
