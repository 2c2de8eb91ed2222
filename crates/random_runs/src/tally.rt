//! What the runs came to, counted.
use runs::command::Outcome;
use writer::beat::Beat;
use writer::heed::Heeded;
use writer::refusal::Refusal;

/// Refusals have numbers below this.
const NUMBERS: usize = 28;

#[derive(Clone, Copy)]
pub struct Tally {
    pub blocks: u64,
    pub calls: u64,
    bytes: u64,
    confirmed: u64,
    beats: u64,
    breaks: u64,
    recoveries: u64,
    replacements: u64,
    replayed: u64,
    records: u64,
    /// How often each refusal came, by its number.
    refusals: [u64; NUMBERS],
}

// Counts one more.
fn add(count: &mut u64, more: u64) {
    *count = count.saturating_add(more);
}

impl Tally {
    pub fn new() -> Tally {
        Tally {
            blocks: 0,
            calls: 0,
            bytes: 0,
            confirmed: 0,
            beats: 0,
            breaks: 0,
            recoveries: 0,
            replacements: 0,
            replayed: 0,
            records: 0,
            refusals: [0; NUMBERS],
        }
    }

    pub fn open(&mut self) {
        add(&mut self.blocks, 1);
    }

    pub fn record(&mut self) {
        add(&mut self.records, 1);
    }

    pub fn refuse(&mut self, refusal: Refusal) {
        let number = usize::from(u8::from(refusal));
        if let Some(count) = self.refusals.get_mut(number) {
            add(count, 1);
        }
    }

    fn heed(&mut self, heeded: Heeded) {
        match heeded {
            Heeded::Nothing | Heeded::HeartBeat => {}
            Heeded::Confirmed(_) | Heeded::Complete(_) => add(&mut self.confirmed, 1),
            Heeded::Broken(_) => add(&mut self.breaks, 1),
        }
    }

    /// Counts what a call came to.
    pub fn take(&mut self, outcome: Outcome) {
        add(&mut self.calls, 1);
        match outcome {
            Outcome::Wrote(Ok(written)) => {
                add(&mut self.bytes, written.taken as u64);
                add(&mut self.breaks, u64::from(written.put_lost));
            }
            Outcome::Heard(Ok(heeded)) => self.heed(heeded),
            Outcome::Beaten(Ok(beat)) => {
                add(&mut self.beats, u64::from(beat == Beat::Put));
                add(&mut self.breaks, u64::from(beat == Beat::Lost));
            }
            Outcome::Ended(Ok(finished)) => add(&mut self.breaks, u64::from(finished.put_lost)),
            Outcome::Recovered(Ok(recovered)) => {
                add(&mut self.recoveries, 1);
                add(
                    &mut self.replacements,
                    u64::from(recovered.choice.is_some()),
                );
                add(&mut self.replayed, recovered.replayed as u64);
                add(&mut self.breaks, u64::from(recovered.put_lost));
            }
            _ => {}
        }
        if let Some(refusal) = outcome.refusal() {
            self.refuse(refusal);
        }
    }

    pub fn show(&self, rt: &HostRuntime) -> anyhow::Result<()> {
        println!(rt;
            "blocks {}, calls {}, bytes taken {}",
            self.blocks, self.calls, self.bytes
        )?;
        println!(rt;
            "packets confirmed {}, heartbeats put {}, breaks {}",
            self.confirmed, self.beats, self.breaks
        )?;
        println!(rt;
            "recoveries {}, datanodes replaced {}, packets put again {}",
            self.recoveries, self.replacements, self.replayed
        )?;
        println!(rt; "records {}", self.records)?;
        println!(rt; "refusals by number:")?;
        for (number, count) in self
            .refusals
            .iter()
            .enumerate()
            .filter(|(_, count)| **count > 0)
        {
            println!(rt; "  {number}: {count}")?;
        }
        println!(rt; "nothing was lost, doubled or out of order")?;
        Ok(())
    }
}
