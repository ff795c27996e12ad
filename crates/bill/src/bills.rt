ghost use Rattle.std.specs.Prelude.{◌≡◌, map, IfOk, string_bytes, MatchResult};
ghost use Rattle.division.specs.Columns.{tenths};
ghost use Rattle.words.specs.Fields.{fields_of};
ghost use Rattle.bill.specs.Bills.{carried, ReadAs, Unread, Answered, answer_text};

use crate::fields::{LineFault, read_figures};
use crate::text::{denied_line, shares_line};
use division::{DivisionRule, LargestRemainder, RunningCut, divide_signed};
use figures::{Cents, Ground, Load};
use std::alloc::{AllocError, Global};

// A total to be divided, and the loads of the seats in order.
#[derive(Drop)]
pub(crate) struct Bill {
    total: Cents,
    loads: Vec<Load>,
}

impl Bill {
    // A bill from its line: the total, then the loads.
    fn read(heap: Global, line: &[u8]) -> Result<Bill, LineFault>
        ensures { MatchResult result (λ b. ReadAs (fields_of line.now) b.total.0 (tenths b.loads.items)) (λ e. Unread (fields_of line.now) e) }
    {
        let values = read_figures(heap, line)?;
        let Some((total, rest)) = values.split_first() else {
            return Err(LineFault::Blank);
        };
        let loads = loads_of(heap, rest)?;
        Ok(Bill {
            total: Cents(*total),
            loads,
        })
    }
}

// Each figure as a load. One that no load can hold is carried as the largest, so that a rule denies it.
fn loads_of(heap: Global, figures: &[i64]) -> Result<Vec<Load>, AllocError>
    ensures { IfOk result (λ v. tenths v.items ≡ map carried figures.now) }
{
    figures.iter().map(|figure| load_of(*figure)).collect(heap)
}

fn load_of(figure: i64) -> Load
    ensures { result.0 ≡ carried figure }
{
    Load(u32::try_from(figure).unwrap_or(u32::MAX))
}

// What a rule answers to a bill: its letter and the shares, or its letter and the denial.
fn answer<R: DivisionRule>(heap: Global, rule: &R, bill: &Bill) -> Result<String, AllocError>
    ensures { IfOk result (λ s. string_bytes s ≡ answer_text R.LETTER (R.DivisionRule.shares rule.now) bill.now.total.0 (tenths bill.now.loads.items)) }
{
    let mut column = vec![in heap; Cents(0); bill.loads.len()]?;
    let shares = column.as_mut_slice();
    match divide_signed(rule, bill.total, &bill.loads, shares) {
        Ok(()) => shares_line(heap, R::LETTER, shares),
        Err(fault) => denied_line(heap, R::LETTER, Ground::from(fault)),
    }
}

// The two lines that answer a line: what the running cut charges each seat, then what the largest-remainder rule does.
pub fn answers(heap: Global, line: &[u8]) -> Result<String, LineFault>
    ensures { MatchResult result (λ s. Answered (fields_of line.now) (string_bytes s)) (λ e. Unread (fields_of line.now) e) }
{
    let bill = Bill::read(heap, line)?;
    let cut = answer(heap, &RunningCut, &bill)?;
    let remainder = answer(heap, &LargestRemainder, &bill)?;
    Ok(format!(in heap; "{cut}\n{remainder}\n")?)
}
