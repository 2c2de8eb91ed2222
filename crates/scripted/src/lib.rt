//! A script of a run: what a block is opened with, what its chain and its namenode answer, and the calls; and a link and a namenode that
//! follow their plans and write down what they are handed.
#![tactic(auto)]

pub mod act;
pub mod clock;
pub mod connection;
pub mod error;
pub mod event;
pub mod lines;
pub mod link;
pub mod log;
pub mod message;
pub mod opening;
pub mod plans;
pub mod questions;
pub mod script;
pub mod scripted_namenode;
pub mod words;
