ghost use Rattle.std.specs.Prelude.{◌≡◌, ◌*◌, ◌<◌, ◌≤◌, map, length, take, pos};
ghost use Rattle.division.specs.Limits.{max_total, max_load};
ghost use Rattle.division.specs.Columns.{tenths, cents_of};
ghost use Rattle.division.specs.Remainder.{floors_of, rests_of, left_over, ahead, remainder_of, LargestRemainders};
ghost use Rattle.division.specs.Remaining.{remainder_keeps};

use crate::rules::{Division, DivisionRule};
use figures::{Cents, Load, MAX_SEATS};

// Every share rounded down, then one cent each to the seats of largest remainder, ties to the lower seat.
#[derive(Clone, Copy)]
pub struct LargestRemainder;

// Its contract is the rule in its own words: the cents that are left go to the largest remainders, ties to the lower seat.
pub fn largest_first()
    ensures { LargestRemainders }
{}

impl DivisionRule for LargestRemainder {
    const LETTER: char = 'L';

    ghost LETTER = { 76 };

    ghost shares = { λ _. remainder_of };

    ghost keeps = { λ rule t ls f. remainder_keeps t ls f };

    fn share_out(&self, division: &Division<'_>) -> [Cents; MAX_SEATS] {
        let mut shares = [Cents(0); MAX_SEATS];
        let mut rests = [0; MAX_SEATS];
        let left = division.round_down(&mut shares, &mut rests);
        let rests = &rests[..division.loads.len()];
        for (s, share) in shares[..rests.len()].iter_mut().enumerate() {
            share.0 += i64::from(ahead_of(rests, s) < left);
        }
        shares
    }
}

impl Division<'_> {
    // Writes the share of each seat, rounded down, and the remainder; answers the cents that are left then.
    fn round_down(&self, shares: &mut [Cents; MAX_SEATS], rests: &mut [u64; MAX_SEATS]) -> u64
        ensures shares { take (length self.now.loads.now) shares.new ≡ cents_of (map pos (floors_of self.now.total (tenths self.now.loads.now))) }
        ensures rests { take (length self.now.loads.now) rests.new ≡ rests_of self.now.total (tenths self.now.loads.now) }
        ensures left { result ≡ left_over self.now.total (tenths self.now.loads.now) }
    {
        let mut left = self.total;
        for (s, load) in self.loads.iter().enumerate() {
            let due = self.due(*load);
            let floor = due / self.all;
            left -= floor;
            shares[s] = Cents(floor as i64);
            rests[s] = due % self.all;
        }
        left
    }

    // What is due to a load, before it is divided by all loads.
    fn due(&self, load: Load) -> u64
        requires { load.0 ≤ max_load }
        ensures value { result ≡ self.now.total * load.0 }
        ensures small { result ≤ max_total * max_load }
    {
        self.total * u64::from(load.0)
    }
}

// How many seats stand before seat s: their remainder is larger, or the same and theirs the lower number. The tests are joined
// without a branch, which would go either way from seat to seat.
fn ahead_of(rests: &[u64], s: usize) -> u64
    requires { s < length rests.now }
    ensures { result ≡ ahead rests.now s }
{
    let own = rests[s];
    rests
        .iter()
        .enumerate()
        .map(|(k, rest)| u64::from((*rest > own) | (*rest == own) & (k < s)))
        .sum()
}
