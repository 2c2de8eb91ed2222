//! Replacing a failed datanode: the three settings, when a new datanode is asked for, and which one is taken.
#![tactic(auto)]

pub mod choice;
pub mod datanode;
pub mod settings;
