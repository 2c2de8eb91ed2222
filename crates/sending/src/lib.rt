//! The two steps over a link: a packet framed and put, and an answer asked for and judged.
#![tactic(auto)]

pub mod ask;
pub mod put;
