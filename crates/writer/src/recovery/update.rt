//! The namenode told, and the writer whole again.
ghost use Rattle.std.specs.Prelude.{◌≡◌};
ghost use Rattle.writer.specs.Stages.{state_on, restored, UpdatesOn};
ghost use Rattle.writer.specs.States.{IsBrokenState};
ghost use Rattle.writer.specs.Views.{view_of};

use crate::cause::Cause;
use crate::recover::Recovered;
use crate::recovery::Replayed;
use crate::refusal::Refusal;
use crate::state::Writer;
use crate::state::kind::State;
use namenode::protocol::NamenodeProtocol;
use pipeline::nodes::NodeTable;
use proto::token::Token;

// The state that a replay leaves: whole, or broken by the packet that was lost.
fn state_on(lost: Option<u64>, finished: bool) -> State
    ensures { result ≡ state_on lost finished }
{
    match lost {
        Some(seqno) => State::Broken {
            cause: Cause::Put(seqno),
            finished,
        },
        None => {
            if finished {
                State::Finishing
            } else {
                State::Streaming
            }
        }
    }
}

impl Writer {
    // Goes on with the chosen pipeline, row by row in the table, the new stamp and its token.
    fn restore(&mut self, lost: Option<u64>, stamp: u64, token: Token, time: u64)
        requires { IsBrokenState self.old.state }
        ensures { view_of self.new
            ≡ restored lost stamp token self.old.chosen.rows.items time (view_of self.old) }
    {
        let finished = self.state.has_ended();
        self.nodes.overwrite(self.chosen.as_slice());
        self.stamp = stamp;
        self.token = token;
        self.beaten = time;
        self.state = state_on(lost, finished);
    }
}

impl Replayed {
    /// Tells the namenode where the block now is. Where it accepts, the writer goes on there.
    pub(crate) fn update<N: NamenodeProtocol>(
        self,
        namenode: &mut N,
        writer: &mut Writer,
        token: Token,
        choice: Option<(usize, usize)>,
        time: u64,
    ) -> Result<Recovered, Refusal>
        requires { IsBrokenState writer.old.state }
        ensures { UpdatesOn N.NamenodeProtocol self token choice writer.old.chosen.rows.items time
            (view_of writer.old) namenode.old result (view_of writer.new) namenode.new }
    {
        let Replayed {
            stamp,
            replayed,
            lost,
        } = self;
        let told = namenode.update_pipeline(stamp, writer.len, writer.chosen.as_slice());
        told.map_err(|_| Refusal::Update)?;
        writer.restore(lost, stamp, token, time);
        Ok(Recovered {
            choice,
            stamp,
            replayed,
            put_lost: lost.is_some(),
        })
    }
}
