//! Tests of the formats and of the namenodes, on examples. They stand in a crate of their own, since a crate is proved once more with its tests.
#![tactic(auto)]

#[cfg(test)]
mod answers;
#[cfg(test)]
mod frames;
#[cfg(test)]
mod lines;
#[cfg(test)]
mod namenodes;
#[cfg(test)]
mod policies;
#[cfg(test)]
mod sums;
