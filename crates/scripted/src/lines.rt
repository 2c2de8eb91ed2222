//! The lines of a script that make no call: what the block is opened with, and the plans.
use crate::error::ScriptError;
use crate::opening::{NodeRow, ScriptedOpening};
use crate::plans::{GivenStamp, LinkPlans, NamenodePlans, OfferedList, Reply};
use crate::script::Script;
use crate::words::{framed, octets, text};
use std::alloc::Global;

// `HEX(DatanodeInfoProto) STORAGE TYPE`
fn node_row(heap: Global, words: &[&str]) -> Result<NodeRow, ScriptError> {
    let [info, storage_id, storage_type] = words else {
        return Err(ScriptError::Form);
    };
    Ok(NodeRow {
        info: octets(heap, info)?,
        storage_id: text(heap, storage_id)?,
        storage_type: storage_type.parse()?,
    })
}

// `lost`, or a response as it stands on the wire.
fn reply(heap: Global, word: &str) -> Result<Reply, ScriptError> {
    if word == "lost" {
        return Ok(Reply::Lost);
    }
    let wire = octets(heap, word)?;
    let message = framed(wire.as_slice()).ok_or(ScriptError::Form)?;
    Ok(Reply::Response(Vec::from_slice(heap, message)?))
}

// `HEX(token)`, and three words for each datanode.
fn offered_list(heap: Global, token: &str, words: &[&str]) -> Result<OfferedList, ScriptError> {
    let mut rows = Vec::new(heap);
    for row in words.chunks(3) {
        rows.push(node_row(heap, row)?)?;
    }
    Ok(OfferedList {
        rows,
        token: octets(heap, token)?,
    })
}

impl ScriptedOpening {
    // Takes an item of the opening, and says whether the line is one.
    fn take(&mut self, heap: Global, words: &[&str]) -> Result<bool, ScriptError> {
        match words {
            ["path", path] => self.path = text(heap, path)?,
            ["block", pool, id, stamp, len] => {
                self.pool_id = text(heap, pool)?;
                self.block_id = id.parse()?;
                self.stamp = stamp.parse()?;
                self.initial_len = len.parse()?;
            }
            ["blocksize", size] => self.block_size = size.parse()?,
            ["chunk", size] => self.chunk_size = size.parse()?,
            ["packet", size] => self.packet_size = size.parse()?,
            ["replication", count] => self.replication = count.parse()?,
            ["set", name] => self.settings.set(name, ""),
            ["set", name, value] => self.settings.set(name, value),
            ["token", token] => self.token = octets(heap, token)?,
            ["node", row @ ..] => self.nodes.push(node_row(heap, row)?)?,
            _ => return Ok(false),
        }
        Ok(true)
    }
}

impl LinkPlans {
    // Takes a plan of the chain, and says whether the line is one.
    fn take(&mut self, heap: Global, words: &[&str]) -> Result<bool, ScriptError> {
        match words {
            ["setup", word] => self.setups.push_back(reply(heap, word)?)?,
            ["transfer", word] => self.transfers.push_back(reply(heap, word)?)?,
            ["nolisten", address] => self.down.push(String::from_str(heap, address)?)?,
            _ => return Ok(false),
        }
        Ok(true)
    }
}

impl NamenodePlans {
    // Takes a plan of the namenode, and says whether the line is one.
    fn take(&mut self, heap: Global, words: &[&str]) -> Result<bool, ScriptError> {
        match words {
            ["nn-list", "refuse"] => self.lists.push_back(None)?,
            ["nn-list", "ok", token, rows @ ..] => {
                self.lists
                    .push_back(Some(offered_list(heap, token, rows)?))?
            }
            ["nn-stamp", "refuse"] => self.stamps.push_back(None)?,
            ["nn-stamp", stamp, token] => {
                let given = GivenStamp {
                    stamp: stamp.parse()?,
                    token: octets(heap, token)?,
                };
                self.stamps.push_back(Some(given))?
            }
            ["nn-update", word] => self.updates.push_back(*word == "ok")?,
            _ => return Ok(false),
        }
        Ok(true)
    }
}

/// Takes a line that makes no call.
pub fn take_item(heap: Global, script: &mut Script, words: &[&str]) -> Result<(), ScriptError> {
    let taken = script.opening.take(heap, words)?
        || script.link.take(heap, words)?
        || script.namenode.take(heap, words)?;
    if !taken {
        return Err(ScriptError::Form);
    }
    Ok(())
}
