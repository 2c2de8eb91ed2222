//! The first spare that is new, offered behind the survivors.
ghost use Rattle.std.specs.Prelude.{◌≡◌, [], ◌++◌, is_ok, is_some, IfOk, vec_items};
ghost use Rattle.replace.specs.Choice.{any_same};
ghost use Rattle.pool.specs.Pools.{with_spares, first_spare, list_for, listed, Lists};
ghost use Rattle.pool.specs.Books.{BookView};
ghost use Rattle.std.proofs.Common.{rules};

use crate::book::PLACES;
use crate::keeping::refill;
use crate::spare_datanodes::SpareDatanodes;
use crate::spares::Spares;
use namenode::protocol::Refused;
use proto::datanode::Datanode;
use replace::choice::any_same;
use std::alloc::{AllocError, Global};

// Whether a datanode has the ip and port of a survivor or of a failed one.
fn is_old(survivors: &[Datanode], failed: &[Datanode], node: &Datanode) -> bool
    ensures { result ≡ any_same (survivors.now ++ failed.now) node.now }
{
    any_same(survivors, node) || any_same(failed, node)
}

// The first spare that is no old datanode.
fn first_spare(spares: &[Datanode], survivors: &[Datanode], failed: &[Datanode]) -> Option<Datanode>
    ensures { result ≡ first_spare spares.now (survivors.now ++ failed.now) }
{
    spares
        .iter()
        .find(|spare| !is_old(survivors, failed, spare))
        .copied()
}

impl SpareDatanodes {
    // These datanodes to spare, with memory for every list that they are offered in.
    pub(crate) fn new(heap: Global, spares: &[Datanode]) -> Result<SpareDatanodes, AllocError>
        ensures { IfOk result
            (λ s. (vec_items s.spares ≡ spares.now) × (vec_items s.offered ≡ [])) }
    {
        let mut kept = Vec::new(heap);
        kept.extend_from_slice(spares)?;
        let offered = Vec::with_capacity(heap, PLACES + 1)?;
        Ok(SpareDatanodes {
            spares: kept,
            offered,
        })
    }

    // Offers the survivors and a spare, where there is room for them and a spare that is new.
    fn choose(&mut self, survivors: &[Datanode], failed: &[Datanode]) -> Result<(), Refused>
        ensures answer { is_ok result
            ≡ is_some (list_for (vec_items self.old.spares) survivors.now failed.now) }
        ensures after { (v : BookView)
            → with_spares v self.new ≡ listed (with_spares v self.old)
            (list_for (vec_items self.old.spares) survivors.now failed.now) }
    {
        if survivors.len() > PLACES {
            return Err(Refused);
        }
        let spare = first_spare(&self.spares, survivors, failed).ok_or(Refused)?;
        refill(&mut self.offered, survivors);
        let _ = self.offered.push(spare);
        Ok(())
    }
}

impl Spares for SpareDatanodes {
    ghost handed = { λ s. vec_items s.offered };

    ghost lists = { λ s v asked came w t. Lists (with_spares v s) asked came (with_spares w t) };

    ghost stays = { λ s t.
        (vec_items t.spares ≡ vec_items s.spares) × (vec_items t.offered ≡ vec_items s.offered) };

    fn list(
        &mut self,
        _size: u64,
        survivors: &[Datanode],
        failed: &[Datanode],
    ) -> Result<(), Refused> {
        self.choose(survivors, failed)
    }

    fn offered(&self) -> &[Datanode] {
        &self.offered
    }

    ghost keeps = { Prim.search rules };

    ghost same = { Prim.search rules };
}
