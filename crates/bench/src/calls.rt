//! The bench as a link, and as a chain.
ghost use Rattle.spool.specs.Calls.{Sets, Nexts, Transfers};
ghost use Rattle.spool.specs.Spools.{spool_view, seen_in};
ghost use Rattle.bench.specs.Acts.{PutsOrFull};
ghost use Rattle.spool.specs.Meaning.{whole_of};
ghost use Rattle.spool.specs.Meaning;
ghost use Rattle.std.proofs.Common.{⊎_elim, rules};
ghost use Rattle.bench.specs.Mirrors.{lost_put};

use crate::replicas::{append_all, copies_of, has_room};
use crate::state::Bench;
use chain::link::{Link, LinkLost};
use chain::meaning::Chain;
use packet::header::HEART_BEAT_SEQNO;
use packet::read::read_frame;
use proto::datanode::Datanode;
use request::setup::Setup;
use spool::state::NODES;

impl Link for Bench {
    ghost sets = { λ a node request least came b.
        Sets (spool_view a.lead) request least came (spool_view b.lead) };

    ghost puts = { λ a frame taken b.
        PutsOrFull (spool_view a.lead) frame taken (spool_view b.lead) };

    ghost nexts = { λ a came b. Nexts (spool_view a.lead) came (spool_view b.lead) };

    ghost transfers = { λ a node request came b.
        Transfers (spool_view a.lead) came (spool_view b.lead) };

    fn set_up(
        &mut self,
        node: &Datanode,
        request: &[u8],
        least: u64,
        answer: &mut [u8],
    ) -> Result<usize, LinkLost> {
        let setup = Setup::read(request).ok_or(LinkLost)?;
        let kept = self.lead.kept();
        if setup.pipeline_size == 0 || setup.pipeline_size > NODES || least > kept.len() as u64 {
            return Err(LinkLost);
        }
        let others = setup.pipeline_size as usize - 1;
        let least_kept = &kept[0..least as usize];
        let mirrors = copies_of(self.heap, least_kept, others, self.lead.limit()).map_err(
            |_| LinkLost,
        )?;
        let len = self.lead.set_up(node, request, least, answer)?;
        self.mirrors = mirrors;
        Ok(len)
    }

    fn put(&mut self, frame: &[u8]) -> Result<(), LinkLost> {
        let packet = read_frame(frame).ok_or(LinkLost)?.packet;
        if !has_room(&self.mirrors, packet.data.len()) {
            return Err(LinkLost);
        }
        self.lead.put(frame)?;
        if packet.seqno != HEART_BEAT_SEQNO {
            append_all(&mut self.mirrors, packet.data);
        }
        Ok(())
    }

    fn next(&mut self, answer: &mut [u8]) -> Result<Option<usize>, LinkLost> {
        self.lead.next(answer)
    }

    fn transfer(
        &mut self,
        node: &Datanode,
        request: &[u8],
        answer: &mut [u8],
    ) -> Result<usize, LinkLost> {
        self.lead.transfer(node, request, answer)
    }
}

impl Chain for Bench {
    ghost seen = { λ s. seen_in (spool_view s.lead) };

    ghost setting = { λ a b node request least came e.
        Meaning.setting (whole_of a.lead) (spool_view b.lead) request least came e };

    ghost putting = { λ a b frame taken e.
        ⊎_elim (λ p. Meaning.putting (whole_of a.lead) (spool_view b.lead) frame taken p)
        (λ l. lost_put (spool_view a.lead) (spool_view b.lead) frame taken l.0 l.1) e };

    ghost answering = { λ a b came e.
        Meaning.answering (spool_view a.lead) (spool_view b.lead) came (whole_of a.lead) e };

    ghost transferring = { Prim.search rules };
}
