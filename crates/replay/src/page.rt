//! The transcript's lines.
use crate::transfer::choice_of;
use ack::tally::FailedNodes;
use proto::block::ExtendedBlock;
use scripted::event::Event;
use scripted::plans::OfferedList;
use sha2::{Digest, Sha256};
use writer::refusal::Refusal;

/// The operation's code of a transfer.
const TRANSFER_BLOCK: u8 = 86;

/// A longer frame is told by its length, its sum and its front.
const LONG_FRAME: usize = 1024;

const HEAD: usize = 64;

/// Where the transcript goes.
#[derive(Drop)]
pub struct Page<'a> {
    pub rt: &'a HostRuntime,
    /// Whether long frames are shown whole.
    pub whole_frames: bool,
}

impl<'a> Page<'a> {
    pub fn line(&self, text: &str) -> anyhow::Result<()> {
        println!(self.rt; "{text}")?;
        Ok(())
    }

    pub fn refused(&self, refusal: Refusal) -> anyhow::Result<()> {
        let number = u8::from(refusal);
        println!(self.rt; "error {number}: {refusal}")?;
        Ok(())
    }

    pub fn wrote(&self, taken: usize) -> anyhow::Result<()> {
        println!(self.rt; "wrote {taken}")?;
        Ok(())
    }

    pub fn record(&self, block: ExtendedBlock) -> anyhow::Result<()> {
        let pool = str::from_utf8(block.pool_id.as_slice()).unwrap_or("");
        let id = block.block_id;
        let stamp = block.generation_stamp;
        let len = block.num_bytes;
        println!(self.rt; "record {pool} {id} {stamp} {len}")?;
        Ok(())
    }

    pub fn recovers(&self, failed: FailedNodes) -> anyhow::Result<()> {
        println!(self.rt; "recover failed=[{failed}]")?;
        Ok(())
    }

    fn request(&self, address: &str, code: u8, octets: &[u8]) -> anyhow::Result<()> {
        let digits = hex::encode(self.rt.alloc(), octets)?;
        println!(self.rt; "request {address} {code} {digits}")?;
        Ok(())
    }

    fn choice(&self, address: &str, octets: &[u8], list: &OfferedList) -> anyhow::Result<()> {
        match choice_of(self.rt.alloc(), list, address, octets)? {
            Some((new, source)) => println!(self.rt; "choice new={new} source={source}")?,
            None => println!(self.rt; "choice ?")?,
        }
        Ok(())
    }

    fn frame(&self, connection: u64, octets: &[u8]) -> anyhow::Result<()> {
        let heap = self.rt.alloc();
        let len = octets.len();
        if len <= LONG_FRAME || self.whole_frames {
            let digits = hex::encode(heap, octets)?;
            println!(self.rt; "frame {connection} {digits}")?;
            return Ok(());
        }
        let sum = hex::encode(heap, Sha256::digest(octets))?;
        let head = hex::encode(heap, octets.get(..HEAD).unwrap_or(octets))?;
        println!(self.rt; "frame {connection} len={len} sha256={sum} head={head}")?;
        Ok(())
    }

    /// An event; `list` is the namenode's last list.
    pub fn event(&self, event: &Event, list: &OfferedList) -> anyhow::Result<()> {
        match event {
            Event::Request {
                address,
                code,
                octets,
            } => {
                if *code == TRANSFER_BLOCK {
                    self.choice(address.as_str(), octets.as_slice(), list)?;
                }
                self.request(address.as_str(), *code, octets.as_slice())
            }
            Event::Frame { connection, octets } => self.frame(*connection, octets.as_slice()),
            Event::Asked { method, message } => {
                let digits = hex::encode(self.rt.alloc(), message.as_slice())?;
                println!(self.rt; "namenode {method} {digits}")?;
                Ok(())
            }
            Event::Refused => self.line("namenode-refused"),
        }
    }
}
