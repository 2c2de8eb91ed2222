//! The stages that a recovery passes through. Each is given up for the next: they are made and taken apart here and in the modules below
//! alone, and none can be dropped. They hold plain numbers, and the writer with its tables is lent at each step.
ghost use Rattle.std.specs.Prelude.{◌≡◌, ◌≤◌, length};
ghost use Rattle.pipeline.specs.Channels.{channel_view, SameLoans};
ghost use Rattle.writer.specs.Closing.{record_of};
ghost use Rattle.writer.specs.Stages.{StampsOn, SetsUpOn};
ghost use Rattle.writer.specs.Views.{view_of, least_of};

use crate::refusal::Refusal;
use crate::state::Writer;
use chain::link::Link;
use namenode::protocol::NamenodeProtocol;
use pipeline::channel::Channel;
use pipeline::set_up::SetupRequest;
use proto::block::{ClientOperationHeader, ExtendedBlock};
use proto::token::Token;
use request::stage::Stage;

pub mod replay;
pub mod update;

/// It is known how many bytes all datanodes have.
// The least length goes from stage to stage, and a step asks that it is the writer's: a stage that said so would have to hold the writer.
pub struct Counted {
    least: u64,
}

/// The namenode has given a new stamp.
pub struct Stamped {
    least: u64,
    stamp: u64,
}

/// The pipeline is set up.
pub struct SetUp {
    least: u64,
    stamp: u64,
}

/// The held packets were put again, up to one that may have been lost.
pub struct Replayed {
    stamp: u64,
    replayed: usize,
    // The packet whose frame was lost. Such a loss ends the replay, and the namenode is told all the same.
    lost: Option<u64>,
}

impl Writer {
    /// The block as requests and the closing record name it.
    pub(crate) fn block(&self) -> ExtendedBlock
        ensures { result ≡ record_of (view_of self.now) }
    {
        ExtendedBlock {
            pool_id: self.terms.pool_id,
            block_id: self.terms.block_id,
            generation_stamp: self.stamp,
            num_bytes: self.len,
        }
    }
}

impl Counted {
    /// Counts what is neither held nor being filled.
    pub(crate) fn of(writer: &Writer) -> Counted
        ensures { result.least ≡ least_of (view_of writer.now) }
    {
        Counted {
            least: writer.len - writer.waiting - writer.filling as u64,
        }
    }

    /// Asks the namenode for a stamp, and for a token in form with it.
    pub(crate) fn stamp<N: NamenodeProtocol>(
        self,
        namenode: &mut N,
        len: u64,
    ) -> Result<(Stamped, Token), Refusal>
        ensures { StampsOn N.NamenodeProtocol self.least len namenode.old result namenode.new }
    {
        let Counted { least } = self;
        let stamp = namenode
            .update_block_for_pipeline(len)
            .map_err(|_| Refusal::Stamp)?;
        let token = Token::new(namenode.stamp_token()).ok_or(Refusal::Stamp)?;
        Ok((Stamped { least, stamp }, token))
    }
}

impl Stamped {
    /// Sets up the chosen pipeline, with the old stamp in the block and the new one beside it.
    pub(crate) fn set_up<'a, L: Link>(
        self,
        channel: &mut Channel<'_, L>,
        writer: &'a Writer,
        token: &'a Token,
    ) -> Result<SetUp, Refusal>
        requires { 1 ≤ length writer.now.chosen.rows.items }
        ensures same { SameLoans channel.old channel.new }
        ensures acts { SetsUpOn L.Link (view_of writer.now) token.now
            writer.now.chosen.rows.items self
            (channel_view channel.old) result (channel_view channel.new) }
    {
        let Stamped { least, stamp } = self;
        let wanted = SetupRequest {
            header: ClientOperationHeader {
                block: writer.block(),
                token,
                client_name: &writer.terms.client_name,
            },
            stage: Stage::SetupStreamingRecovery,
            min_bytes: least,
            max_bytes: writer.len,
            latest_stamp: stamp,
            chunk_size: writer.terms.size.chunk_size(),
        };
        channel
            .set_up(writer.chosen.as_slice(), wanted)
            .map_err(Refusal::Recovery)?;
        Ok(SetUp { least, stamp })
    }
}
