//! A namenode in memory, with spare datanodes to offer or without any.
#![tactic(auto)]

pub mod book;
pub mod choosing;
pub mod entry;
pub mod keeping;
pub mod laws;
pub mod memory;
pub mod spare_datanodes;
pub mod spares;
