//! A link that follows a script: its packets are kept by a spool, and what is answered is the script's.
ghost use Rattle.std.specs.Prelude.{◌≡◌, ◌≤◌, length};
ghost use Rattle.ack.specs.Verdicts.{passes};
ghost use Rattle.chain.specs.Acts.{Front};
ghost use Rattle.spool.specs.Spools.{spool_view, seen_in};
ghost use Rattle.spool.specs.Meaning.{whole_of};
ghost use Rattle.scripted.specs.Links;
ghost use Rattle.scripted.specs.Links.{Sets, Puts, Nexts, Confirms};
ghost use Rattle.std.proofs.Common.{ap};

use crate::connection::Connection;
use crate::event::Noted;
use crate::log::Log;
use crate::plans::{LinkPlans, Reply};
use ack::ack::passing;
use chain::link::{Link, LinkLost};
use chain::meaning::Chain;
use proto::datanode::Datanode;
use request::send::Request;
use request::transfer_block::TransferBlock;
use request::write_block::WriteBlock;
use spool::state::Spool;
use std::alloc::{AllocError, Global};

/// A response with status 0, SUCCESS: what comes where nothing is planned.
const GOOD: [u8; 2] = [0x08, 0x00];

/// A scripted link.
#[derive(Drop)]
pub struct ScriptedLink {
    pub(crate) spool: Spool,
    pub(crate) connection: Connection,
}

// Lays a message at the front of a buffer, and says how many octets it has.
fn lay(message: &[u8], answer: &mut [u8]) -> usize
    requires { length message.now ≤ length answer.old }
    ensures { Front message.now answer.old answer.new result }
{
    let len = message.len();
    answer[0..len].copy_from_slice(message);
    len
}

impl ScriptedLink {
    /// A link over a spool of at most eight nodes.
    pub fn new(heap: Global, spool: Spool, log: Log) -> ScriptedLink
        ensures { result.spool ≡ spool }
    {
        ScriptedLink {
            spool,
            connection: Connection::new(heap, log),
        }
    }

    /// Has more planned, behind what is.
    pub fn plan(&mut self, plans: LinkPlans) -> Result<(), AllocError>
        ensures { self.new.spool ≡ self.old.spool }
    {
        self.connection.plan(plans)
    }

    /// An answer comes. Without a connection it goes nowhere.
    pub fn answer(&mut self, message: &[u8]) -> Result<(), AllocError>
        ensures { self.new.spool ≡ self.old.spool }
    {
        self.connection.answer(message)
    }

    /// The connection is reset.
    pub fn reset(&mut self)
        ensures { self.new.spool ≡ self.old.spool }
    {
        self.connection.reset()
    }

    /// The first datanode sends no more.
    pub fn half_close(&mut self)
        ensures { self.new.spool ≡ self.old.spool }
    {
        self.connection.half_close()
    }

    /// What was written down since the last taking.
    pub fn take_events(&mut self) -> Vec<Noted>
        ensures { self.new.spool ≡ self.old.spool }
    {
        self.connection.take_events()
    }

    // An answer that passes with the first waiting packet's number confirms that packet.
    fn heed(&mut self, message: &[u8])
        ensures { Confirms (passes message.now) (spool_view self.old.spool).pending
            (spool_view self.old.spool) (spool_view self.new.spool) }
    {
        let number = passing(message);
        if number.is_some() && number == self.spool.first() {
            self.spool.confirm();
        }
    }
}

impl Link for ScriptedLink {
    ghost sets = { λ a node request least came b.
        Sets (spool_view a.spool) request least came (spool_view b.spool) };

    ghost puts = { λ a frame taken b. Puts (spool_view a.spool) frame taken (spool_view b.spool) };

    ghost nexts = { λ a came b. Nexts (spool_view a.spool) came (spool_view b.spool) };

    ghost transfers = { λ a node request came b. spool_view b.spool ≡ spool_view a.spool };

    fn set_up(
        &mut self,
        node: &Datanode,
        request: &[u8],
        least: u64,
        answer: &mut [u8],
    ) -> Result<usize, LinkLost> {
        self.connection.request(node, WriteBlock::CODE, request)?;
        let reply = self.connection.set_up_reply();
        let response = response_of(&reply)?;
        if response.len() > answer.len() {
            return Err(LinkLost);
        }
        let mut good = [0u8; 2];
        self.spool.set_up(node, request, least, &mut good)?;
        self.connection.connect();
        Ok(lay(response, answer))
    }

    fn put(&mut self, frame: &[u8]) -> Result<(), LinkLost> {
        self.connection.frame(frame)?;
        self.spool.put(frame)
    }

    fn next(&mut self, answer: &mut [u8]) -> Result<Option<usize>, LinkLost> {
        let Some(message) = self.connection.hear()? else {
            return Ok(None);
        };
        if message.len() > answer.len() {
            return Err(LinkLost);
        }
        self.heed(message.as_slice());
        Ok(Some(lay(message.as_slice(), answer)))
    }

    fn transfer(
        &mut self,
        node: &Datanode,
        request: &[u8],
        answer: &mut [u8],
    ) -> Result<usize, LinkLost> {
        self.connection.request(node, TransferBlock::CODE, request)?;
        let reply = self.connection.transfer_reply();
        let response = response_of(&reply)?;
        if response.len() > answer.len() {
            return Err(LinkLost);
        }
        Ok(lay(response, answer))
    }
}

impl Chain for ScriptedLink {
    ghost seen = { λ l. seen_in (spool_view l.spool) };

    ghost setting = { λ a b node request least came e.
        Links.setting (whole_of a.spool) (spool_view b.spool) request least came e };

    ghost putting = { λ a b frame taken e.
        Links.putting (whole_of a.spool) (spool_view b.spool) frame taken e };

    ghost answering = { λ a b came e.
        Links.answering (spool_view a.spool) (spool_view b.spool) came (whole_of a.spool) e };

    ghost transferring = { λ a b node request came e. ap seen_in e };
}

// The response of a planned reply, if it is none that is lost.
fn response_of(reply: &Option<Reply>) -> Result<&[u8], LinkLost> {
    match reply {
        None => Ok(&GOOD),
        Some(Reply::Response(message)) => Ok(message.as_slice()),
        Some(Reply::Lost) => Err(LinkLost),
    }
}
