//! The packets that a writer holds: a record for each slot, and the packet that a record and its slot's bytes are.
#![tactic(auto)]

pub mod table;
