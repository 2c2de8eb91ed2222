//! The bench itself.
ghost use Rattle.std.specs.Prelude.{◌≡◌, true};
ghost use Rattle.spool.specs.Spools.{spool_view};
ghost use Rattle.bench.specs.Replicas.{copies, mirrored};

use spool::state::Spool;
use std::alloc::Global;

/// Up to eight nodes: the first, which takes packets and answers, and the replicas of the others, each of which holds what the first one does.
#[derive(Drop)]
pub struct Bench {
    pub(crate) lead: Spool,
    pub(crate) mirrors: Vec<Vec<u8>>,
    pub(crate) heap: Global,
    ghost same: { mirrored (spool_view lead).bytes (copies mirrors.items) ≡ true },
}
