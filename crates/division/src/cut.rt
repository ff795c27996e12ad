ghost use Rattle.division.specs.Cut.{cut_of};
ghost use Rattle.division.specs.Cutting.{cut_keeps};

use crate::rules::{Division, DivisionRule};
use figures::{Cents, MAX_SEATS};

// Seat s gets total × (loads 0 to s) ÷ all loads, rounded down, less the same figure for the seats before it.
#[derive(Clone, Copy)]
pub struct RunningCut;

impl DivisionRule for RunningCut {
    const LETTER: char = 'R';

    ghost LETTER = { 82 };

    ghost shares = { λ _. cut_of };

    ghost keeps = { λ rule t ls f. cut_keeps t ls f };

    fn share_out(&self, division: &Division<'_>) -> [Cents; MAX_SEATS] {
        let mut shares = [Cents(0); MAX_SEATS];
        let mut run: u64 = 0;
        let mut paid: u64 = 0;
        for (s, load) in division.loads.iter().enumerate() {
            run += u64::from(load.0);
            let upto = division.total * run / division.all;
            shares[s] = Cents((upto - paid) as i64);
            paid = upto;
        }
        shares
    }
}
