//! Runs a table of wire vectors, a line each, from standard input: builds each message by the functions of this repository and compares it octet by octet.
#![tactic(auto)]

mod answers;
mod error;
mod frames;
mod hex;
mod line;
mod requests;
mod tally;
mod transfer;
mod write;

use std::io;
use std::io::{BufRead, BufReader};
use tally::Tally;

fn report(rt: &impl Print, tally: Tally) -> io::Result<()> {
    println!(rt; "frames {}", tally.frames)?;
    println!(rt; "set up requests {}", tally.writes)?;
    println!(rt; "transfer requests {}", tally.transfers)?;
    println!(rt; "answers {}", tally.answers)?;
    println!(rt; "responses {}", tally.responses)?;
    println!(rt; "lines that differ {}", tally.differing)
}

fn main(rt: HostRuntime) -> io::Result<()> {
    let heap = rt.alloc();
    let mut tally = Tally::new();
    for (i, text) in BufReader::new(heap, rt.stdin())?.lines(heap).enumerate() {
        let text = text?;
        tally = match line::run(heap, text.as_str()) {
            Ok(kind) => tally.agreed(kind),
            Err(error) => {
                let number = i.saturating_add(1);
                println!(rt; "line {number} {error}")?;
                tally.differed()
            }
        };
    }
    report(&rt, tally)
}
