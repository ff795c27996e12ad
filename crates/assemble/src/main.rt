// Assembles a tape. Each line of standard input is a record in words; standard output gets the bytes of them all, or nothing where
// a line is no record.
#![tactic(auto)]

use anyhow::bail;
use assembly::{append, entry_of};
use std::io;
use std::io::{BufRead, BufReader, Write};

fn main(rt: HostRuntime) -> anyhow::Result<()> {
    let lines = BufReader::new(rt.alloc(), rt.stdin())?.split(rt.alloc(), b'\n');
    let mut tape = Vec::new(rt.alloc());
    for (i, line) in lines.enumerate() {
        match entry_of(line?.as_slice()) {
            Ok(Some(entry)) => append(&mut tape, &entry)?,
            Ok(None) => {}
            Err(fault) => bail!("line {}: {fault}", i + 1),
        }
    }
    io::writer(&rt).write_all(tape.as_slice())?;
    Ok(())
}
