//! What was written down.
use crate::clock::Clock;
use crate::event::{Event, Noted};
use std::alloc::{AllocError, Global};
use std::mem;

/// The events of one party, each with its turn.
#[derive(Drop)]
pub struct Log {
    heap: Global,
    clock: Clock,
    noted: Vec<Noted>,
}

impl Log {
    pub fn new(heap: Global, clock: Clock) -> Log {
        Log {
            heap,
            clock,
            noted: Vec::new(heap),
        }
    }

    pub fn heap(&self) -> Global {
        self.heap
    }

    /// Writes an event down.
    pub fn note(&mut self, event: Event) -> Result<(), AllocError> {
        let turn = self.clock.tick();
        self.noted.push(Noted { turn, event })?;
        Ok(())
    }

    /// What was written down since the last taking.
    pub fn take(&mut self) -> Vec<Noted> {
        mem::replace(&mut self.noted, Vec::new(self.heap))
    }
}
