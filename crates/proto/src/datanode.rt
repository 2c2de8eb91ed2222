//! A datanode of a pipeline, with the storage that the block has on it.
ghost use Rattle.std.specs.Prelude.{◌≡◌, ◌^◌, ◌<◌, true, false, ◌&&◌, Some, None};
ghost use Rattle.wire.specs.Find.{part_of, number_of};
ghost use Rattle.proto.specs.Form.{is_text};
ghost use Rattle.proto.specs.Rules.{is_datanode, is_node};

use crate::fixed::Fixed;
use crate::form::{conforms, is_text};
use crate::rules::{DATANODE_ID, DATANODE_INFO};
use wire::find::find;

/// A `DatanodeInfoProto` in form, of at most 256 octets, with its storage's name and type, 0 to 127.
#[derive(Clone, Copy)]
pub struct Datanode {
    info: Fixed<256>,
    storage_id: Fixed<64>,
    // A number: hdfs.proto lists fewer types than the 128 that may be passed.
    storage_type: u8,
    ghost typed: { storage_type < 2 ^ 7 },
}

// Whether these octets are a datanode in form.
fn is_datanode(info: &[u8]) -> bool
    ensures { result ≡ is_datanode info.now }
{
    info.len() <= 256 && conforms(&DATANODE_INFO, info) && conforms(&DATANODE_ID, find(info, 1))
}

/// Whether a datanode's octets, its storage's name and its storage's type, 0 to 127, are in form.
pub fn is_node(info: &[u8], storage_id: &[u8], storage_type: u8) -> bool
    ensures { result ≡ is_node info.now storage_id.now storage_type }
{
    is_datanode(info) && is_text(storage_id, 64) && storage_type < 128
}

impl Datanode {
    ghost use Rattle.proto.specs.Messages.{octets_in, info_of, id_of, ip_of, port_of};

    /// The datanode that these octets are, where they, the storage's name and its type, 0 to 127, are in form.
    pub fn new(info: &[u8], storage_id: &[u8], storage_type: u8) -> Option<Datanode>
        ensures { elim result [
          | Some d ↦ (is_node info.now storage_id.now storage_type ≡ true)
              × (octets_in d.info ≡ info.now)
              × (octets_in d.storage_id ≡ storage_id.now)
              × (d.storage_type ≡ storage_type)
          | None ↦ is_node info.now storage_id.now storage_type ≡ false
        ] }
    {
        if !is_node(info, storage_id, storage_type) {
            return None;
        }
        Some(Datanode {
            info: Fixed::try_from(info).ok()?,
            storage_id: Fixed::try_from(storage_id).ok()?,
            storage_type,
        })
    }

    /// The whole `DatanodeInfoProto`.
    pub fn info(&self) -> &[u8]
        ensures { result.now ≡ info_of self.now }
    {
        self.info.as_slice()
    }

    /// The `DatanodeIDProto` in it.
    pub fn id(&self) -> &[u8]
        ensures { result.now ≡ id_of self.now }
    {
        find(self.info(), 1)
    }

    pub fn ip_addr(&self) -> &[u8]
        ensures { result.now ≡ ip_of self.now }
    {
        find(self.id(), 1)
    }

    pub fn xfer_port(&self) -> u64
        ensures { result ≡ port_of self.now }
    {
        find(self.id(), 4)
    }

    pub fn storage_id(&self) -> &[u8]
        ensures { result.now ≡ octets_in self.now.storage_id }
    {
        self.storage_id.as_slice()
    }

    pub fn storage_type(&self) -> u8
        ensures { result ≡ self.now.storage_type }
    {
        self.storage_type
    }
}
