//! Runs of the block writer over the chains and namenodes in memory, with a loss, a strange answer or a refusal where a test wants one.
#![tactic(auto)]

#[cfg(test)]
mod action;
#[cfg(test)]
mod agree;
#[cfg(test)]
mod buffers;
#[cfg(test)]
mod case;
#[cfg(test)]
mod end;
#[cfg(test)]
mod field;
#[cfg(test)]
mod link;
#[cfg(test)]
mod look;
#[cfg(test)]
mod nodes;
#[cfg(test)]
mod play;
#[cfg(test)]
mod run;
#[cfg(test)]
mod sample;
#[cfg(test)]
mod test_namenode;
#[cfg(test)]
mod tests;
