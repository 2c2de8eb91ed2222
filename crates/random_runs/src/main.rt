//! Random runs of the block writer: blocks of random sizes, random calls, random faults, and after every call a look at what must be true of it.
#![tactic(auto)]

mod block;
mod calls;
mod check;
mod cluster;
mod model;
mod nodes;
mod plan;
mod surroundings;
mod tally;

use anyhow::Context;
use block::write_block;
use faults::chance::Chance;
use std::env;
use tally::Tally;

fn run(rt: &HostRuntime) -> anyhow::Result<()> {
    let mut words = env::args(rt)?.skip(1);
    let seed = words.next().context("the words are SEED CALLS")?;
    let calls = words.next().context("the words are SEED CALLS")?;
    let seed = seed.as_str().parse::<u64>()?;
    let calls = calls.as_str().parse::<u64>()?;
    let mut chance = Chance::from_seed(seed);
    let mut tally = Tally::new();
    for _ in 0..calls {
        if tally.calls >= calls {
            break;
        }
        write_block(rt, &mut chance, &mut tally)?;
    }
    tally.show(rt)
}

fn main(rt: HostRuntime) -> anyhow::Result<()> {
    run(&rt)
}
