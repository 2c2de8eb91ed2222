//! A namenode that follows a script: the block's entry is kept in memory, and what is answered is the script's.
ghost use Rattle.std.specs.Prelude.{◌≡◌, vec_items};
ghost use Rattle.namenode.specs.Entries.{Entry};
ghost use Rattle.pool.specs.Houses.{house_of};
ghost use Rattle.scripted.specs.Offers.{offer_in, Updated};
ghost use Rattle.std.proofs.Common.{rules};

use crate::event::{Event, Method, Noted};
use crate::log::Log;
use crate::opening::ScriptedOpening;
use crate::plans::{NamenodePlans, OfferedList};
use crate::questions::Client;
use namenode::meaning::Namenode;
use namenode::protocol::{NamenodeProtocol, Offered, Refused};
use pool::memory::House;
use proto::datanode::Datanode;
use proto::token::Token;
use std::alloc::{AllocError, Global};

/// A scripted namenode.
#[derive(Drop)]
pub struct ScriptedNamenode {
    house: House,
    plans: NamenodePlans,
    client: Client,
    offered: OfferedList,
    token: Vec<u8>,
    log: Log,
}

impl ScriptedNamenode {
    /// A namenode that has the block as it is opened, on no datanode yet. `uuid` is its client's.
    pub fn new(
        heap: Global,
        opening: &ScriptedOpening,
        uuid: &str,
        log: Log,
    ) -> Result<ScriptedNamenode, AllocError> {
        Ok(ScriptedNamenode {
            house: House::new(heap, opening.stamp, opening.initial_len, &[], Token::none())?,
            plans: NamenodePlans::new(heap),
            client: Client::new(heap, opening, uuid)?,
            offered: OfferedList {
                rows: Vec::new(heap),
                token: Vec::new(heap),
            },
            token: Vec::new(heap),
            log,
        })
    }

    /// Has more planned, behind what is.
    pub fn plan(&mut self, plans: NamenodePlans) -> Result<(), AllocError>
        ensures { self.new.house ≡ self.old.house }
    {
        self.plans.add(plans)
    }

    /// What was written down since the last taking.
    pub fn take_events(&mut self) -> Vec<Noted>
        ensures { self.new.house ≡ self.old.house }
    {
        self.log.take()
    }

    /// The list that was handed out last.
    pub fn offered_list(&self) -> &OfferedList {
        &self.offered
    }

    // Writes a request down.
    fn asked(&mut self, method: Method, message: Vec<u8>) -> Result<(), Refused>
        ensures { self.new.house ≡ self.old.house }
    {
        let event = Event::Asked { method, message };
        self.log.note(event).or(Err(Refused))
    }

    // Writes a refusal down.
    fn refuse(&mut self) -> Refused
        ensures { self.new.house ≡ self.old.house }
    {
        let _ = self.log.note(Event::Refused);
        Refused
    }
}

impl NamenodeProtocol for ScriptedNamenode {
    ghost offer = { λ n. offer_in n.offered };

    ghost token = { λ n. vec_items n.token };

    ghost lists = { λ a asked came b. house_of b.house ≡ house_of a.house };

    ghost stamps = { λ a size came b. house_of b.house ≡ house_of a.house };

    ghost updates = { λ a new accepted b.
        Updated new accepted (house_of a.house) (house_of b.house) };

    fn get_additional_datanode(
        &mut self,
        size: u64,
        survivors: &[Datanode],
        failed: &[Datanode],
    ) -> Result<(), Refused> {
        let message = self
            .client
            .get_additional_datanode(size, survivors, failed)
            .or(Err(Refused))?;
        self.asked(Method::GetAdditionalDatanode, message)?;
        match self.plans.lists.pop_front() {
            Some(Some(list)) => {
                self.offered = list;
                Ok(())
            }
            Some(None) | None => Err(self.refuse()),
        }
    }

    fn offered_len(&self) -> usize {
        self.offered.rows.len()
    }

    fn offered(&self, position: usize) -> Option<Offered<'_>> {
        let row = self.offered.rows.get(position)?;
        Some(Offered {
            info: row.info.as_slice(),
            storage_id: row.storage_id.as_slice(),
            storage_type: row.storage_type,
        })
    }

    fn offered_token(&self) -> &[u8] {
        self.offered.token.as_slice()
    }

    fn update_block_for_pipeline(&mut self, size: u64) -> Result<u64, Refused> {
        let message = self
            .client
            .update_block_for_pipeline(size)
            .or(Err(Refused))?;
        self.asked(Method::UpdateBlockForPipeline, message)?;
        match self.plans.stamps.pop_front() {
            Some(Some(given)) => {
                self.token = given.token;
                Ok(given.stamp)
            }
            Some(None) | None => Err(self.refuse()),
        }
    }

    fn stamp_token(&self) -> &[u8] {
        self.token.as_slice()
    }

    fn update_pipeline(
        &mut self,
        stamp: u64,
        size: u64,
        nodes: &[Datanode],
    ) -> Result<(), Refused> {
        let message = self
            .client
            .update_pipeline(stamp, size, nodes)
            .or(Err(Refused))?;
        self.asked(Method::UpdatePipeline, message)?;
        if self.plans.updates.pop_front() != Some(true) {
            return Err(self.refuse());
        }
        self.house.update_pipeline(stamp, size, nodes)?;
        self.client.stamp = stamp;
        Ok(())
    }
}

impl Namenode for ScriptedNamenode {
    ghost entry = { λ n. (house_of n.house).entry };

    ghost listing = { Prim.search rules };

    ghost stamping = { Prim.search rules };

    ghost updating = { Prim.search rules };
}
