//! The order of what happens at the chain and at the namenode, which are two values.
use std::alloc::{AllocError, Global};
use std::cell::Cell;
use std::rc::Rc;

/// A counter that the chain and the namenode share: each event has its turn. A cell, since both are lent at once and neither owns the other.
#[derive(Drop)]
pub struct Clock {
    turns: Rc<Cell<u64>>,
}

impl Clock {
    pub fn new(heap: Global) -> Result<Clock, AllocError> {
        Ok(Clock {
            turns: Rc::new(heap, Cell::new(0))?,
        })
    }

    /// The same clock, for another owner.
    pub fn share(&self) -> Result<Clock, AllocError> {
        Ok(Clock {
            turns: self.turns.clone()?,
        })
    }

    /// The next turn.
    pub fn tick(&self) -> u64 {
        let turn = self.turns.get();
        self.turns.set(turn.saturating_add(1));
        turn
    }
}
