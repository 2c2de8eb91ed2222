//! The spool as a link, and as a chain.
ghost use Rattle.std.specs.Prelude.{◌≡◌, ◌≤◌, cond, ◌&&◌, length, replicate, Some, None};
ghost use Rattle.ack.specs.Written.{answered};
ghost use Rattle.request.specs.Setups.{setup_of};
ghost use Rattle.chain.specs.Acts.{Replied, Answered};
ghost use Rattle.spool.specs.Spools.{spool_view, seen_in, sets_up};
ghost use Rattle.spool.specs.Calls.{Sets, Puts, Nexts, Transfers, responded};
ghost use Rattle.spool.specs.Meaning.{whole_of};
ghost use Rattle.spool.specs.Meaning;
ghost use Rattle.std.proofs.Common.{rules};

use crate::state::Spool;
use ack::write::write_ack;
use chain::link::{Link, LinkLost};
use chain::meaning::Chain;
use packet::header::HEART_BEAT_SEQNO;
use packet::read::read_frame;
use proto::datanode::Datanode;
use request::setup::Setup;

// The response of status 0, at the front of `answer`.
fn respond(answer: &mut [u8]) -> Result<usize, LinkLost>
    ensures { responded answer.old answer.new result }
{
    if answer.len() < 2 {
        return Err(LinkLost);
    }
    answer[0] = 0x08;
    answer[1] = 0x00;
    Ok(2)
}

// An answer in which every node says that it has the packet.
fn write_good(answer: &mut [u8], seqno: u64, nodes: usize) -> Option<usize>
    requires { nodes ≤ 8 }
    ensures { answered seqno (replicate nodes 0) answer.old answer.new result }
{
    let good = [0u8; 8];
    write_ack(answer, seqno, &good[0..nodes])
}

impl Link for Spool {
    ghost sets = { λ a node request least came b.
        Sets (spool_view a) request least came (spool_view b) };

    ghost puts = { λ a frame taken b. Puts (spool_view a) frame taken (spool_view b) };

    ghost nexts = { λ a came b. Nexts (spool_view a) came (spool_view b) };

    ghost transfers = { λ a node request came b. Transfers (spool_view a) came (spool_view b) };

    fn set_up(
        &mut self,
        _node: &Datanode,
        request: &[u8],
        least: u64,
        answer: &mut [u8],
    ) -> Result<usize, LinkLost> {
        let setup = Setup::read(request).ok_or(LinkLost)?;
        if !self.sets_up(setup, least) || answer.len() < 2 {
            return Err(LinkLost);
        }
        self.rebuild(least as usize, setup.pipeline_size, setup.chunk_size as u32);
        respond(answer)
    }

    fn put(&mut self, frame: &[u8]) -> Result<(), LinkLost> {
        let read = read_frame(frame).ok_or(LinkLost)?;
        if read.packet.seqno == HEART_BEAT_SEQNO {
            return Ok(());
        }
        if !self.takes(read) {
            return Err(LinkLost);
        }
        self.hold(read);
        Ok(())
    }

    fn next(&mut self, answer: &mut [u8]) -> Result<Option<usize>, LinkLost> {
        let Some(first) = self.pending.front() else {
            return Ok(None);
        };
        let len = write_good(answer, first.seqno, self.nodes as usize).ok_or(LinkLost)?;
        self.confirm();
        Ok(Some(len))
    }

    fn transfer(
        &mut self,
        _node: &Datanode,
        _request: &[u8],
        answer: &mut [u8],
    ) -> Result<usize, LinkLost> {
        respond(answer)
    }
}

impl Chain for Spool {
    ghost seen = { λ s. seen_in (spool_view s) };

    ghost setting = { λ a b node request least came e.
        Meaning.setting (whole_of a) (spool_view b) request least came e };

    ghost putting = { λ a b frame taken e.
        Meaning.putting (whole_of a) (spool_view b) frame taken e };

    ghost answering = { λ a b came e.
        Meaning.answering (spool_view a) (spool_view b) came (whole_of a) e };

    ghost transferring = { Prim.search rules };
}
