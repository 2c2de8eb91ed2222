//! A script, read line by line.
use crate::act::{Act, Call};
use crate::error::ScriptError;
use crate::lines::take_item;
use crate::opening::ScriptedOpening;
use crate::plans::{LinkPlans, NamenodePlans};
use std::alloc::Global;
use std::mem;

/// A script. What the block is opened with stands before its opening, and a plan anywhere before it is used.
#[derive(Drop)]
pub struct Script {
    pub opening: ScriptedOpening,
    pub calls: Vec<Call>,
    // The plans behind the last call.
    pub(crate) link: LinkPlans,
    pub(crate) namenode: NamenodePlans,
}

impl Script {
    /// A script of no line.
    pub fn new(heap: Global) -> Script {
        Script {
            opening: ScriptedOpening::new(heap),
            calls: Vec::new(heap),
            link: LinkPlans::new(heap),
            namenode: NamenodePlans::new(heap),
        }
    }

    /// Takes a line: an item of the opening, a plan, a call, a comment or nothing.
    pub fn take_line(&mut self, heap: Global, line: &str) -> Result<(), ScriptError> {
        let line = line.trim();
        if line.is_empty() || line.starts_with('#') {
            return Ok(());
        }
        let words: Vec<&str> = line.split_whitespace().collect(heap)?;
        match Act::read(heap, words.as_slice())? {
            Some(act) => {
                let call = Call {
                    line: String::from_str(heap, line)?,
                    act,
                    link: mem::replace(&mut self.link, LinkPlans::new(heap)),
                    namenode: mem::replace(&mut self.namenode, NamenodePlans::new(heap)),
                };
                self.calls.push(call)?;
                Ok(())
            }
            None => take_item(heap, self, words.as_slice()),
        }
    }
}
