//! What a test looks at of a namenode, and one with nothing right but its stamps.
ghost use Rattle.std.specs.Prelude.{◌∷◌, []};

use namenode::protocol::{NamenodeProtocol, Offered, Refused};
use pool::entry::BlockEntry;
use pool::memory::MemoryNamenode;
use pool::spares::Spares;
use proto::datanode::Datanode;

/// A namenode whose entry a test can look at.
pub trait HasEntry: NamenodeProtocol {
    fn entry(&self) -> BlockEntry<'_>;
}

impl<S: Spares> HasEntry for MemoryNamenode<S> {
    fn entry(&self) -> BlockEntry<'_> {
        MemoryNamenode::entry(self)
    }
}

/// A namenode that offers this one datanode, whoever is left, gives stamp 1002, and refuses each update. It means nothing of its own, so its
/// acts say nothing: a test looks at what came.
#[derive(Clone, Copy)]
pub struct TestNamenode {
    pub row: Offered<'static>,
    pub token: &'static [u8],
}

impl NamenodeProtocol for TestNamenode {
    ghost offer = { λ n. record {
      rows = record {
        info = n.row.info.now;
        storage = n.row.storage_id.now;
        kind = n.row.storage_type;
      } ∷ [];
      token = n.token.now;
    } };

    ghost token = { λ n. n.token.now };

    ghost lists = { λ _ _ _ _. Unit {0} };

    ghost stamps = { λ _ _ _ _. Unit {0} };

    ghost updates = { λ _ _ _ _. Unit {0} };

    fn get_additional_datanode(
        &mut self,
        _size: u64,
        _survivors: &[Datanode],
        _failed: &[Datanode],
    ) -> Result<(), Refused> {
        Ok(())
    }

    fn offered_len(&self) -> usize {
        1
    }

    fn offered(&self, position: usize) -> Option<Offered<'_>> {
        match position {
            0 => Some(self.row),
            _ => None,
        }
    }

    fn offered_token(&self) -> &[u8] {
        self.token
    }

    fn update_block_for_pipeline(&mut self, _size: u64) -> Result<u64, Refused> {
        Ok(1002)
    }

    fn stamp_token(&self) -> &[u8] {
        self.token
    }

    fn update_pipeline(
        &mut self,
        _stamp: u64,
        _size: u64,
        _nodes: &[Datanode],
    ) -> Result<(), Refused> {
        Err(Refused)
    }
}

// The block as it was opened, on no datanode that was told of.
impl HasEntry for TestNamenode {
    fn entry(&self) -> BlockEntry<'_> {
        BlockEntry {
            stamp: 1001,
            size: 0,
            nodes: &[],
        }
    }
}
