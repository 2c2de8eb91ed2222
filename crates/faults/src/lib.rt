//! A pipeline and a namenode over other ones, with faults: one at a packet of the user's choice, or many by chance.
#![tactic(auto)]

mod answer;
pub mod chance;
pub mod failing_node;
pub mod faulty_link;
pub mod faulty_namenode;
pub mod stray;
pub mod watched;
