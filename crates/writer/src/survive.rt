//! The pipeline that a recovery goes on with: the datanodes that are left, or a list with a datanode added.
ghost use Rattle.std.specs.Prelude.{◌≡◌, ◌≤◌, length, vec_len};
ghost use Rattle.std.specs.Result.{result_err};
ghost use Rattle.pipeline.specs.Channels.{channel_view, SameLoans};
ghost use Rattle.writer.specs.Recovering.{left_of, gone_of, beyond, needs_datanode, Replaces, ChoosesIf, Ready};
ghost use Rattle.writer.specs.States.{failed_on};
ghost use Rattle.writer.specs.Views.{view_of};

use crate::cause::Cause;
use crate::refusal::Refusal;
use crate::state::Writer;
use crate::state::kind::State;
use ack::tally::FailedNodes;
use chain::link::Link;
use namenode::protocol::NamenodeProtocol;
use pipeline::add_datanode::NoDatanode;
use pipeline::channel::Channel;
use pipeline::nodes::NodeTable;
use pipeline::survivors::split;
use replace::datanode::ReplaceDatanodeOnFailure;

impl State {
    // The datanodes that are held to have failed.
    fn failed_nodes(&self) -> FailedNodes
        ensures { result ≡ failed_on self.now }
    {
        match *self {
            State::Broken { cause, .. } => cause.failed_nodes(),
            State::Streaming | State::Finishing | State::Complete | State::Closed => {
                Cause::Link.failed_nodes()
            }
        }
    }
}

impl Writer {
    // Parts the datanodes into those that are left, in `chosen`, and those that are gone, or says why no pipeline can be made of the former.
    pub(crate) fn survive(&mut self) -> Result<(), Refusal>
        ensures value { result_err result ≡ beyond (view_of self.old) }
        ensures view { view_of self.new ≡ view_of self.old }
        ensures parted { Ready (result_err result) (view_of self.old) self.new.chosen.rows.items
            self.new.gone.rows.items }
    {
        let failed = self.state.failed_nodes();
        let count = self.nodes.rows.len();
        if failed.count >= count {
            return Err(Refusal::AllFailed);
        }
        if failed.highest >= count {
            return Err(Refusal::PastPipeline);
        }
        split(
            self.nodes.as_slice(),
            &failed,
            &mut self.chosen,
            &mut self.gone,
        );
        Ok(())
    }

    // Has a datanode added to those that are left, if the namenode has one and it gets a copy; best effort goes on without.
    fn replace_failed<L: Link, N: NamenodeProtocol>(
        &mut self,
        channel: &mut Channel<'_, L>,
        namenode: &mut N,
    ) -> Result<Option<(usize, usize)>, NoDatanode>
        requires left { self.old.chosen.rows.items ≡ left_of (view_of self.old) }
        requires gone { self.old.gone.rows.items ≡ gone_of (view_of self.old) }
        requires some_left { 1 ≤ length self.old.chosen.rows.items }
        ensures acts { Replaces L.Link N.NamenodeProtocol (view_of self.old)
            (channel_view channel.old) namenode.old
            result self.new.chosen.rows.items (channel_view channel.new) namenode.new }
        ensures same { SameLoans channel.old channel.new }
        ensures view { view_of self.new ≡ view_of self.old }
        ensures some { 1 ≤ length self.new.chosen.rows.items }
    {
        let block = self.block();
        let added = channel.add_datanode(
            namenode,
            block,
            &self.terms.client_name,
            self.nodes.as_slice(),
            self.chosen.as_slice(),
            self.gone.as_slice(),
            &mut self.offered,
        );
        match added {
            Ok(places) => {
                self.chosen.overwrite(self.offered.as_slice());
                Ok(Some(places))
            }
            Err(why) => {
                if self.terms.replace.is_best_effort() {
                    Ok(None)
                } else {
                    Err(why)
                }
            }
        }
    }

    /// The pipeline to go on with, in `chosen`, and the positions of a datanode that was added and its source.
    pub(crate) fn choose_pipeline<L: Link, N: NamenodeProtocol>(
        &mut self,
        channel: &mut Channel<'_, L>,
        namenode: &mut N,
    ) -> Result<Option<(usize, usize)>, NoDatanode>
        requires left { self.old.chosen.rows.items ≡ left_of (view_of self.old) }
        requires gone { self.old.gone.rows.items ≡ gone_of (view_of self.old) }
        requires some_left { 1 ≤ length self.old.chosen.rows.items }
        ensures acts { ChoosesIf L.Link N.NamenodeProtocol (needs_datanode (view_of self.old))
            (view_of self.old) (channel_view channel.old) namenode.old
            result self.new.chosen.rows.items (channel_view channel.new) namenode.new }
        ensures same { SameLoans channel.old channel.new }
        ensures view { view_of self.new ≡ view_of self.old }
        ensures some { 1 ≤ length self.new.chosen.rows.items }
    {
        let left = self.chosen.rows.len();
        if !self
            .terms
            .replace
            .should_replace(self.terms.replication, left, self.terms.initial_len)
        {
            return Ok(None);
        }
        self.replace_failed(channel, namenode)
    }
}
