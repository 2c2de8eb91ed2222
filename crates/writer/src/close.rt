//! The writer given up for the block's closing record.
ghost use Rattle.std.specs.Prelude.{◌≡◌};
ghost use Rattle.writer.specs.Views.{view_of};
ghost use Rattle.writer.specs.Closing.{closed};

use crate::refusal::Refusal;
use crate::state::Writer;
use crate::state::kind::State;
use proto::block::ExtendedBlock;

impl Writer {
    /// The record of a complete block: its pool, id, stamp and length. The writer is gone, so that no call can follow.
    pub fn close(self) -> Result<ExtendedBlock, Refusal>
        ensures { result ≡ closed (view_of self) }
    {
        match self.state {
            State::Complete => Ok(self.block()),
            State::Streaming | State::Finishing | State::Broken { .. } | State::Closed => {
                Err(Refusal::Incomplete(self.count))
            }
        }
    }
}
