// Runs the test cases that standard input has, one to a line, and prints how many of each kind agreed.
#![tactic(auto)]

use anyhow::anyhow;
use fault::Fault;
use std::alloc::AllocError;
use std::io::{BufRead, BufReader};
use tally::Tally;
use verdict::Verdict;

mod answer;
mod cases;
mod coders;
mod fault;
mod fields;
mod hex;
mod question;
mod tally;
mod verdict;

fn main(rt: HostRuntime) -> anyhow::Result<()> {
    let heap = rt.alloc();
    let mut tally = Tally::new(heap);
    let lines = BufReader::new(heap, rt.stdin())?.split(heap, b'\n');
    for (line, number) in lines.zip(1u64..) {
        match Verdict::of(heap, line?.as_slice()) {
            Ok(None) => {}
            Ok(Some(verdict)) => tally.take(&rt, number, verdict)?,
            Err(Fault::Malformed) => tally.take_malformed(&rt, number)?,
            Err(Fault::NoMemory) => return Err(AllocError.into()),
        }
    }
    println!(rt; "{tally}")?;
    if tally.all_agreed() {
        Ok(())
    } else {
        Err(anyhow!("not all agreed"))
    }
}
