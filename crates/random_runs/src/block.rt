//! A block of random sizes, written by random calls.
use crate::calls::{command, fill};
use crate::check::{Before, is_closed, is_in_state, is_refused, is_told, is_whole};
use crate::model::{Model, Phase};
use crate::plan::Plan;
use crate::surroundings::Surroundings;
use crate::tally::Tally;
use anyhow::{anyhow, bail, ensure};
use faults::chance::Chance;
use writer::open::Opened;
use writer::refusal::Refusal;
use writer::state::Writer;

/// A block takes so many calls at most.
const CALLS: usize = 400;

/// A write is handed so many bytes at most.
const PART: usize = 128;

/// A writer at work, and what its block must be like.
#[derive(Drop)]
struct Run {
    writer: Writer,
    around: Surroundings,
    model: Model,
    capacity: usize,
    time: u64,
}

impl Run {
    // One random call, and a look at what it came to.
    fn turn(&mut self, chance: &mut Chance, tally: &mut Tally) -> anyhow::Result<()> {
        let mut bytes = [0u8; PART];
        fill(chance, &mut bytes);
        self.go_on(chance);
        let command = command(chance, &self.model, &bytes, self.time);
        let other = chance.one_in(32);
        let before = Before::of(self.around.link.inner());
        let outcome = self.around.call(&mut self.writer, command, other);
        tally.take(outcome);
        is_refused(&self.model, &command, outcome, other)?;
        self.model
            .take(&command, outcome, self.around.namenode.inner())?;
        is_in_state(&self.model, self.writer.state())?;
        is_whole(self.around.link.inner(), &self.model, self.capacity)?;
        is_told(&self.around.link, before, outcome, self.capacity)
    }

    // The clock goes on, and now and then back.
    fn go_on(&mut self, chance: &mut Chance) {
        let seconds = chance.below(12);
        self.time = if chance.one_in(64) {
            self.time.saturating_sub(seconds)
        } else {
            self.time.saturating_add(seconds)
        };
    }

    // A record is given for a complete block, and for no other.
    fn close(self, tally: &mut Tally) -> anyhow::Result<()> {
        let Run {
            writer,
            around,
            model,
            ..
        } = self;
        let bench = around.link.inner();
        match (writer.close(), model.phase) {
            (Ok(record), Phase::Complete) => {
                is_closed(bench, &model, around.namenode.inner().entry(), &record)?;
                tally.record();
            }
            (Err(Refusal::Incomplete(held)), Phase::Whole) => {
                ensure!(
                    held == bench.pending(),
                    "the pipeline's pending packets are not the held ones"
                );
                tally.refuse(Refusal::Incomplete(held));
            }
            (Err(refusal), Phase::Broken(_) | Phase::Closed) => tally.refuse(refusal),
            _ => bail!(
                "a record is given for a block that is not complete, or none for one that is"
            ),
        }
        Ok(())
    }
}

// Random calls, until the block is over and has been called a few times more.
fn make_calls(run: &mut Run, chance: &mut Chance, tally: &mut Tally) -> anyhow::Result<()> {
    for _ in 0..CALLS {
        run.turn(chance, tally).map_err(|error| anyhow!(
            "block {}, call {}: {error}",
            tally.blocks,
            tally.calls
        ))?;
        if run.model.is_over() && chance.one_in(4) {
            break;
        }
    }
    Ok(())
}

/// Opens a random block, makes random calls, and closes it. What is not as it must be is an error.
pub fn write_block(rt: &HostRuntime, chance: &mut Chance, tally: &mut Tally) -> anyhow::Result<()> {
    let plan = Plan::random(chance)?;
    let mut bytes = vec![in rt.alloc(); 0u8; plan.initial as usize]?;
    fill(chance, &mut bytes);
    let mut around = Surroundings::new(rt.alloc(), chance, plan, &bytes)?;
    tally.open();
    let Opened { writer, outcome } = around.open(rt.alloc(), plan)?;
    if let Err(refusal) = outcome {
        tally.refuse(refusal);
        let number = u8::from(refusal);
        ensure!(
            number == 8,
            "an opening in form is refused with number {number}: {refusal}"
        );
        return Ok(());
    }
    let mut run = Run {
        writer,
        around,
        model: Model::new(bytes, plan.nodes),
        capacity: plan.size.capacity(),
        time: 0,
    };
    make_calls(&mut run, chance, tally)?;
    run.close(tally)
}
