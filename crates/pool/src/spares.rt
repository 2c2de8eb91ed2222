//! What a namenode has to offer where a pipeline asks for one datanode more.
ghost use Rattle.std.specs.Prelude.{◌≡◌, List, [], Option, is_ok};
ghost use Rattle.proto.specs.declared.datanode.Datanode.{Datanode};
ghost use Rattle.namenode.specs.Entries.{Ask, Offer, Lists, ask_for};
ghost use Rattle.pool.specs.Books.{BookView, offer_with};
ghost use Rattle.pool.specs.Houses;
ghost use Rattle.std.proofs.Common.{rules};

use namenode::protocol::Refused;
use proto::datanode::Datanode;

pub trait Spares: Sized {
    /// The list that was handed out last.
    ghost handed: { Self → List Datanode };

    /// From one state to another, beside an entry and a token: what was asked, and the offer if one came.
    ghost lists: { Self → BookView → Ask → Option Offer → BookView → Self → Type 0 };

    /// Nothing has changed.
    ghost stays: { Self → Self → Type 0 };

    /// Chooses a list with one datanode more than the survivors, and hands it out.
    fn list(
        &mut self,
        size: u64,
        survivors: &[Datanode],
        failed: &[Datanode],
    ) -> Result<(), Refused>
        ensures { (v : BookView) → Lists
            (λ came. lists self.old v (ask_for size survivors.now failed.now) came v self.new)
            (offer_with v.token (handed self.new)) (is_ok result) };

    /// The list that was handed out last.
    fn offered(&self) -> &[Datanode]
        ensures { result.now ≡ handed self.now };

    ghost keeps: { (s t : Self) (v w : BookView) (asked : Ask) (came : Option Offer)
        → lists s v asked came w t
        → w ≡ v };

    ghost same: { (s : Self) → stays s s };
}

/// No datanode at all.
#[derive(Clone, Copy, Debug, PartialEq, Eq)]
pub struct NoSpares;

impl Spares for NoSpares {
    ghost handed = { λ _. [] };

    ghost lists = { λ s v asked came w t. Houses.Lists v came w };

    ghost stays = { λ _ _. Unit {0} };

    fn list(
        &mut self,
        _size: u64,
        _survivors: &[Datanode],
        _failed: &[Datanode],
    ) -> Result<(), Refused> {
        Err(Refused)
    }

    fn offered(&self) -> &[Datanode] {
        &[]
    }

    ghost keeps = { Prim.search rules };

    ghost same = { Prim.search rules };
}
