//! A chain whose next confirmation is known, so that an answer can be made that confirms nothing.
ghost use Rattle.std.specs.Prelude.{◌≡◌};
ghost use Rattle.faults.specs.Faults.{first_seqno};

use bench::state::Bench;
use chain::meaning::Chain;
use spool::state::Spool;

pub trait Watched: Chain {
    /// The number of the first pending packet.
    fn awaited(&self) -> Option<u64>
        ensures { result ≡ first_seqno (Self.Chain.seen self.now).pending };
}

impl Watched for Spool {
    fn awaited(&self) -> Option<u64> {
        self.first()
    }
}

impl Watched for Bench {
    fn awaited(&self) -> Option<u64> {
        self.first()
    }
}
