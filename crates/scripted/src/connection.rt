//! The wire of a scripted link: what is written down, what the plans answer, and the answers that have come.
use crate::event::{Event, Noted};
use crate::log::Log;
use crate::plans::{LinkPlans, Reply};
use crate::words::address_in;
use chain::link::LinkLost;
use proto::datanode::Datanode;
use std::alloc::{AllocError, Global};
use std::collections::VecDeque;

/// How a connection is.
#[derive(Clone, Copy, PartialEq, Eq)]
pub enum ConnectionState {
    /// No connection was made yet, or it is gone.
    Closed,
    Open,
    /// The datanode sends no more, and reads on.
    HalfClosed,
}

/// All that a scripted link has besides the packets.
#[derive(Drop)]
pub struct Connection {
    plans: LinkPlans,
    /// How many set ups were answered: the number of the connection.
    count: u64,
    state: ConnectionState,
    incoming: VecDeque<Vec<u8>>,
    log: Log,
}

impl Connection {
    pub(crate) fn new(heap: Global, log: Log) -> Connection {
        Connection {
            plans: LinkPlans::new(heap),
            count: 0,
            state: ConnectionState::Closed,
            incoming: VecDeque::new(heap),
            log,
        }
    }

    pub(crate) fn plan(&mut self, plans: LinkPlans) -> Result<(), AllocError> {
        self.plans.add(plans)
    }

    // Writes a request to that datanode down. A datanode that is down gets none.
    pub(crate) fn request(
        &mut self,
        node: &Datanode,
        code: u8,
        octets: &[u8],
    ) -> Result<(), LinkLost> {
        let heap = self.log.heap();
        let address = address_in(heap, node.info()).or(Err(LinkLost))?;
        if self.plans.down.iter().any(|down| *down == address) {
            return Err(LinkLost);
        }
        let octets = Vec::from_slice(heap, octets).or(Err(LinkLost))?;
        let event = Event::Request {
            address,
            code,
            octets,
        };
        self.log.note(event).or(Err(LinkLost))
    }

    // The planned reply to a set up. Without a plan it is good.
    pub(crate) fn set_up_reply(&mut self) -> Option<Reply> {
        self.plans.setups.pop_front()
    }

    // The planned reply to a transfer.
    pub(crate) fn transfer_reply(&mut self) -> Option<Reply> {
        self.plans.transfers.pop_front()
    }

    // A set up was answered: a new connection, on which nothing has come.
    pub(crate) fn connect(&mut self) {
        self.count = self.count.saturating_add(1);
        self.state = ConnectionState::Open;
        self.incoming.clear();
    }

    // Writes a frame down, where there is a connection.
    pub(crate) fn frame(&mut self, octets: &[u8]) -> Result<(), LinkLost> {
        if self.state == ConnectionState::Closed {
            return Err(LinkLost);
        }
        let octets = Vec::from_slice(self.log.heap(), octets).or(Err(LinkLost))?;
        let event = Event::Frame {
            connection: self.count,
            octets,
        };
        self.log.note(event).or(Err(LinkLost))
    }

    // The next answer that has come.
    pub(crate) fn hear(&mut self) -> Result<Option<Vec<u8>>, LinkLost> {
        match self.incoming.pop_front() {
            Some(message) => Ok(Some(message)),
            None if self.state == ConnectionState::Open => Ok(None),
            None => Err(LinkLost),
        }
    }

    // An answer comes, where there is a connection for it.
    pub(crate) fn answer(&mut self, message: &[u8]) -> Result<(), AllocError> {
        if self.state == ConnectionState::Open {
            self.incoming
                .push_back(Vec::from_slice(self.log.heap(), message)?)?;
        }
        Ok(())
    }

    // The connection is reset, and what has come on it is gone.
    pub(crate) fn reset(&mut self) {
        self.state = ConnectionState::Closed;
        self.incoming.clear();
    }

    // The datanode sends no more.
    pub(crate) fn half_close(&mut self) {
        if self.state == ConnectionState::Open {
            self.state = ConnectionState::HalfClosed;
        }
    }

    pub(crate) fn take_events(&mut self) -> Vec<Noted> {
        self.log.take()
    }
}
