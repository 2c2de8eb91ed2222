//! A namenode that refuses by chance.
ghost use Rattle.std.specs.Prelude.{◌≡◌};
ghost use Rattle.faults.specs.Namenodes.{due, Lists, Stamps, Updates};
ghost use Rattle.std.proofs.Common.{rules};

use crate::chance::Chance;
use namenode::meaning::Namenode;
use namenode::protocol::{NamenodeProtocol, Offered, Refused};
use proto::datanode::Datanode;

/// A namenode as `inner` is, which refuses a request once in `rarity` requests, as chance has it.
#[derive(Drop)]
pub struct FaultyNamenode<N> {
    pub(crate) inner: N,
    pub(crate) chance: Chance,
    pub(crate) rarity: u64,
}

impl<N> FaultyNamenode<N> {
    pub fn over(inner: N, chance: Chance, rarity: u64) -> FaultyNamenode<N>
        ensures { result ≡ record { inner = inner; chance = chance; rarity = rarity } }
    {
        FaultyNamenode {
            inner,
            chance,
            rarity,
        }
    }

    /// The namenode itself.
    pub fn inner(&self) -> &N
        ensures { result.now ≡ self.now.inner }
    {
        &self.inner
    }

    // Whether a request is refused now.
    fn is_due(&mut self) -> bool
        ensures value { result ≡ due self.old }
        ensures inner { self.new.inner ≡ self.old.inner }
    {
        self.chance.one_in(self.rarity)
    }
}

impl<N: NamenodeProtocol> NamenodeProtocol for FaultyNamenode<N> {
    ghost offer = { λ a. N.NamenodeProtocol.offer a.inner };

    ghost token = { λ a. N.NamenodeProtocol.token a.inner };

    ghost lists = { λ a asked came b. Lists N.NamenodeProtocol a asked came b };

    ghost stamps = { λ a size came b. Stamps N.NamenodeProtocol a size came b };

    ghost updates = { λ a new accepted b. Updates N.NamenodeProtocol a new accepted b };

    fn get_additional_datanode(
        &mut self,
        size: u64,
        survivors: &[Datanode],
        failed: &[Datanode],
    ) -> Result<(), Refused> {
        if self.is_due() {
            return Err(Refused);
        }
        self.inner.get_additional_datanode(size, survivors, failed)
    }

    fn offered_len(&self) -> usize {
        self.inner.offered_len()
    }

    fn offered(&self, position: usize) -> Option<Offered<'_>> {
        self.inner.offered(position)
    }

    fn offered_token(&self) -> &[u8] {
        self.inner.offered_token()
    }

    fn update_block_for_pipeline(&mut self, size: u64) -> Result<u64, Refused> {
        if self.is_due() {
            return Err(Refused);
        }
        self.inner.update_block_for_pipeline(size)
    }

    fn stamp_token(&self) -> &[u8] {
        self.inner.stamp_token()
    }

    fn update_pipeline(
        &mut self,
        stamp: u64,
        size: u64,
        nodes: &[Datanode],
    ) -> Result<(), Refused> {
        if self.is_due() {
            return Err(Refused);
        }
        self.inner.update_pipeline(stamp, size, nodes)
    }
}

impl<N: Namenode> Namenode for FaultyNamenode<N> {
    ghost entry = { λ a. N.Namenode.entry a.inner };

    ghost listing = { Prim.search rules };

    ghost stamping = { Prim.search rules };

    ghost updating = { Prim.search rules };
}
