//! A broken pipeline rebuilt.
ghost use Rattle.std.specs.Prelude.{◌≡◌, ℕ, ◌^◌, ◌<◌, ◌≤◌, length};
ghost use Rattle.pipeline.specs.Channels.{channel_over, SameLoans};
ghost use Rattle.writer.specs.declared.admit.Call.TheVariants as call;
ghost use Rattle.writer.specs.Admits.{refusal_for, lengths_of};
ghost use Rattle.writer.specs.Calls.{site_of, site_at, UnlessRefused};
ghost use Rattle.writer.specs.Recovering.{left_of, gone_of, beyond, Resumes, Builds, RebuildsOn, ChoosesAndRebuilds, IfSurvived, Recovers};
ghost use Rattle.writer.specs.Sizes.{Suffice};
ghost use Rattle.writer.specs.States.{IsBrokenState};
ghost use Rattle.writer.specs.Views.{view_of, least_of};

use crate::admit::{Call, Lengths};
use crate::recovery::{Counted, SetUp, Stamped};
use crate::refusal::Refusal;
use crate::state::Writer;
use chain::link::Link;
use namenode::protocol::NamenodeProtocol;
use pipeline::channel::Channel;
use pipeline::nodes::NodeTable;
use proto::token::Token;

/// What a recovery came to.
#[derive(Clone, Copy, Debug, PartialEq, Eq)]
pub struct Recovered {
    /// The positions of the new datanode and of its source in the namenode's list, where one was added.
    pub choice: Option<(usize, usize)>,
    /// The block's new generation stamp.
    pub stamp: u64,
    /// How many held packets were put again.
    pub replayed: usize,
    /// Whether a frame was lost then, so that the pipeline is broken again. No error: the packets are held as before.
    pub put_lost: bool,
}

// Each step answers by a `match`: after a closure that borrowed the writer, to close it, a proof knows nothing of the writer.
impl Writer {
    // On a pipeline that is set up: puts the held packets again, and tells the namenode.
    fn replay_on<L: Link, N: NamenodeProtocol>(
        &mut self,
        set_up: SetUp,
        token: Token,
        choice: Option<(usize, usize)>,
        channel: &mut Channel<'_, L>,
        namenode: &mut N,
        store: &[u8],
        frame: &mut [u8],
        time: u64,
    ) -> Result<Recovered, Refusal>
        requires is_broken { IsBrokenState self.old.state }
        requires least_value { set_up.least ≡ least_of (view_of self.old) }
        requires buffers { Suffice self.old.terms store.now frame.old }
        ensures same { SameLoans channel.old channel.new }
        ensures acts { Resumes L.Link N.NamenodeProtocol set_up token choice
            self.old.chosen.rows.items time
            (site_at self.old store.now frame.old channel.old namenode.old) result
            (site_at self.new store.now frame.new channel.new namenode.new) }
    {
        let replayed = set_up.replay(channel.link, self, store, frame);
        match replayed.update(namenode, self, token, choice, time) {
            Ok(recovered) => Ok(recovered),
            Err(refusal) => Err(self.close_by(refusal)),
        }
    }

    // With a stamp: sets the pipeline up, and goes on where that was granted.
    fn build<L: Link, N: NamenodeProtocol>(
        &mut self,
        stamped: Stamped,
        token: Token,
        choice: Option<(usize, usize)>,
        channel: &mut Channel<'_, L>,
        namenode: &mut N,
        store: &[u8],
        frame: &mut [u8],
        time: u64,
    ) -> Result<Recovered, Refusal>
        requires is_broken { IsBrokenState self.old.state }
        requires least_value { stamped.least ≡ least_of (view_of self.old) }
        requires buffers { Suffice self.old.terms store.now frame.old }
        requires some_left { 1 ≤ length self.old.chosen.rows.items }
        ensures same { SameLoans channel.old channel.new }
        ensures acts { Builds L.Link N.NamenodeProtocol stamped token choice
            self.old.chosen.rows.items time
            (site_at self.old store.now frame.old channel.old namenode.old) result
            (site_at self.new store.now frame.new channel.new namenode.new) }
    {
        match stamped.set_up(channel, self, &token) {
            Ok(set_up) => {
                self.replay_on(set_up, token, choice, channel, namenode, store, frame, time)
            }
            Err(refusal) => Err(self.close_by(refusal)),
        }
    }

    // On the chosen pipeline: counted, stamped, set up, replayed, each given up for the next.
    fn rebuild<L: Link, N: NamenodeProtocol>(
        &mut self,
        choice: Option<(usize, usize)>,
        channel: &mut Channel<'_, L>,
        namenode: &mut N,
        store: &[u8],
        frame: &mut [u8],
        time: u64,
    ) -> Result<Recovered, Refusal>
        requires is_broken { IsBrokenState self.old.state }
        requires buffers { Suffice self.old.terms store.now frame.old }
        requires some_left { 1 ≤ length self.old.chosen.rows.items }
        ensures same { SameLoans channel.old channel.new }
        ensures acts { RebuildsOn L.Link N.NamenodeProtocol choice
            self.old.chosen.rows.items time
            (site_at self.old store.now frame.old channel.old namenode.old) result
            (site_at self.new store.now frame.new channel.new namenode.new) }
    {
        let counted = Counted::of(self);
        match counted.stamp(namenode, self.len) {
            Ok((stamped, token)) => self.build(
                stamped, token, choice, channel, namenode, store, frame, time,
            ),
            Err(refusal) => Err(self.close_by(refusal)),
        }
    }

    // Chooses a pipeline of those that survived, and rebuilds on it.
    fn choose_and_rebuild<L: Link, N: NamenodeProtocol>(
        &mut self,
        channel: &mut Channel<'_, L>,
        namenode: &mut N,
        store: &[u8],
        frame: &mut [u8],
        time: u64,
    ) -> Result<Recovered, Refusal>
        requires is_broken { IsBrokenState self.old.state }
        requires buffers { Suffice self.old.terms store.now frame.old }
        requires left { self.old.chosen.rows.items ≡ left_of (view_of self.old) }
        requires gone { self.old.gone.rows.items ≡ gone_of (view_of self.old) }
        requires some_left { 1 ≤ length self.old.chosen.rows.items }
        ensures same { SameLoans channel.old channel.new }
        ensures acts { ChoosesAndRebuilds L.Link N.NamenodeProtocol time
            (site_at self.old store.now frame.old channel.old namenode.old) result
            (site_at self.new store.now frame.new channel.new namenode.new) }
    {
        match self.choose_pipeline(channel, namenode) {
            Ok(choice) => self.rebuild(choice, channel, namenode, store, frame, time),
            Err(why) => Err(self.close_by(Refusal::Replacement(why))),
        }
    }

    fn recover_broken<L: Link, N: NamenodeProtocol>(
        &mut self,
        channel: &mut Channel<'_, L>,
        namenode: &mut N,
        store: &[u8],
        frame: &mut [u8],
        time: u64,
    ) -> Result<Recovered, Refusal>
        requires is_broken { IsBrokenState self.old.state }
        requires buffers { Suffice self.old.terms store.now frame.old }
        ensures same { SameLoans channel.old channel.new }
        ensures acts { IfSurvived L.Link N.NamenodeProtocol
            (beyond (view_of self.old)) time
            (site_at self.old store.now frame.old channel.old namenode.old) result
            (site_at self.new store.now frame.new channel.new namenode.new) }
    {
        match self.survive() {
            Ok(()) => self.choose_and_rebuild(channel, namenode, store, frame, time),
            Err(refusal) => Err(self.close_by(refusal)),
        }
    }

    /// ChoosesAndRebuilds a broken pipeline, and puts all held packets again.
    pub fn recover<L: Link, N: NamenodeProtocol>(
        &mut self,
        link: &mut L,
        namenode: &mut N,
        store: &[u8],
        frame: &mut [u8],
        request: &mut [u8],
        answer: &mut [u8],
        time: u64,
    ) -> Result<Recovered, Refusal>
        ensures { let lengths = lengths_of store.now frame.old request.old answer.old in
            let lent = channel_over link.entry.now request.old answer.old in
            let given_back = channel_over link.exit.now request.new answer.new in
            let before = site_of self.old store.now frame.old lent namenode.old in
            let after = site_of self.new store.now frame.new given_back namenode.new in
            UnlessRefused (refusal_for (view_of self.old) call.Recover lengths)
            (Recovers L.Link N.NamenodeProtocol time) before result after }
    {
        self.admit(Call::Recover, Lengths::of(store, frame, request, answer))?;
        let mut channel = Channel {
            link,
            request,
            answer,
        };
        self.recover_broken(&mut channel, namenode, store, frame, time)
    }
}
