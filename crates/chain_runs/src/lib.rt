//! Runs over the two chains, with a loss at each place where one can come.
#![tactic(auto)]

#[cfg(test)]
mod sample;
#[cfg(test)]
mod tests;
