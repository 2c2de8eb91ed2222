//! The writer of one replicated block: open, write, heed, beat, recover, finish, close.
//!
//! Each call but `state` and `close` is lent four buffers (`buffers`), as `&mut` those that it may
//! write: so its signature says which ones it leaves alone. A call looks first whether it is refused;
//! the methods below it ask that store and frame buffer suffice (`buffers`), for the state that the
//! call was admitted in, and for what a recovery has chosen.
#![tactic(auto)]

pub mod admit;
pub mod beat;
pub mod buffers;
pub mod cause;
pub mod close;
pub mod filling;
pub mod finish;
pub mod hand;
pub mod heed;
pub mod open;
pub mod opening;
pub mod recover;
pub mod recovery;
pub mod refusal;
pub mod rows;
pub mod settle;
pub mod state;
pub mod survive;
pub mod tables;
pub mod terms;
pub mod write;
