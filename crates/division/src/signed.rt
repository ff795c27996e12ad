ghost use Rattle.std.specs.Prelude.{◌≡◌, ℕ, ◌<◌, map, length, pos, ◌≤ℤ◌, slice_index_or};
ghost use Rattle.division.specs.Columns.{tenths, cents_of, negated};
ghost use Rattle.division.specs.Rules.{signed_grounds, Divided, SignedDivided};

use crate::rules::{DivisionFault, DivisionRule, MAX_TOTAL, sum_if_fit};
use figures::{Cents, Load};
use std::cmp::Ordering;

// Divides a signed total by any rule: a negative one as its opposite, every share negated; a total of 0 gives every
// seat 0, and then the loads may all be 0.
pub fn divide_signed<R: DivisionRule>(
    rule: &R,
    total: Cents,
    loads: &[Load],
    out: &mut [Cents],
) -> Result<(), DivisionFault>
    ensures { SignedDivided (R.DivisionRule.shares rule.now) total.0 (tenths loads.now) out.old result out.new }
{
    if !(Cents(-MAX_TOTAL.0)..=MAX_TOTAL).contains(&total) {
        return Err(DivisionFault::Beyond);
    }
    match total.cmp(&Cents(0)) {
        Ordering::Equal => give_nothing(loads, out),
        Ordering::Greater => rule.divide(total, loads, out),
        Ordering::Less => {
            rule.divide(Cents(-total.0), loads, out)?;
            negate(out);
            Ok(())
        }
    }
}

// The shares of a total of 0.
fn give_nothing(loads: &[Load], out: &mut [Cents]) -> Result<(), DivisionFault>
    ensures { Divided (signed_grounds (pos 0) (tenths loads.now) (length out.old)) (cents_of (map (λ _. pos 0) (tenths loads.now))) out.old result out.new }
{
    sum_if_fit(loads, out.len())?;
    out.fill(Cents(0));
    Ok(())
}

// Turns the sign of every share.
fn negate(out: &mut [Cents])
    requires { (s : ℕ) → s < length out.old → pos 0 ≤ℤ (slice_index_or out.old s (record { 0 = pos 0 })).0 }
    ensures { out.new ≡ map negated out.old }
{
    for share in out.iter_mut() {
        *share = Cents(-share.0);
    }
}
