// Divides hourly bills. Each line of standard input is a signed total in cents and then the loads of the seats; for each
// it prints two lines, what the running cut and then what the largest-remainder rule charges each seat.
#![tactic(auto)]

use anyhow::bail;
use bill::{LineFault, answers};
use std::io::{BufRead, BufReader};

fn divide_line(rt: &HostRuntime, number: usize, line: &[u8]) -> anyhow::Result<()> {
    match answers(rt.alloc(), line) {
        Ok(text) => print!(rt; "{text}")?,
        Err(LineFault::NoMemory) => bail!("no memory"),
        Err(fault) => eprintln!(rt; "line {number}: {fault}")?,
    }
    Ok(())
}

fn main(rt: HostRuntime) -> anyhow::Result<()> {
    let lines = BufReader::new(rt.alloc(), rt.stdin())?.split(rt.alloc(), b'\n');
    for (i, line) in lines.enumerate() {
        divide_line(&rt, i + 1, line?.as_slice())?;
    }
    Ok(())
}
