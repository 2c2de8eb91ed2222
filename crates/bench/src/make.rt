//! A bench made over a first buffer, and what can be seen of its nodes.
ghost use Rattle.std.specs.Prelude.{◌≡◌, [], length, IfOk, vec_capacity};
ghost use Rattle.spool.specs.Spools.{spool_view, fresh};
ghost use Rattle.bench.specs.Replicas.{copies};

use crate::state::Bench;
use spool::state::{NODES, Spool};
use std::alloc::{AllocError, Global};

impl Bench {
    /// A bench whose first node keeps the bytes of `buffer`, and never more than it has room for. The others come with the first set up.
    pub fn over(heap: Global, buffer: Vec<u8>) -> Result<Bench, AllocError>
        ensures { IfOk result
            (λ s. (spool_view s.lead ≡ fresh buffer.items (vec_capacity buffer) 8)
            × (s.mirrors.items ≡ [])) }
    {
        let lead = Spool::over(heap, buffer, NODES)?;
        Ok(Bench {
            lead,
            mirrors: Vec::new(heap),
            heap,
        })
    }
}
