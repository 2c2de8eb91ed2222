//! What the requests of the two namenodes do, in the words of their specifications.
ghost use Rattle.std.specs.Prelude.{◌≡◌, ℕ, Bool, List, Option};
ghost use Rattle.namenode.specs.Entries.{Entry, Ask, Offer};
ghost use Rattle.pool.specs.declared.spare_datanodes.SpareDatanodes.{SpareDatanodes};
ghost use Rattle.pool.specs.declared.memory.MemoryNamenode.{MemoryNamenode};
ghost use Rattle.pool.specs.declared.spares.NoSpares.{NoSpares};
ghost use Rattle.pool.specs.Houses;
ghost use Rattle.pool.specs.Houses.{house_of, empty_offer};
ghost use Rattle.pool.specs.Pools;
ghost use Rattle.pool.specs.Pools.{pool_of, offer_of};

use crate::memory::{House, Pool};
use namenode::meaning::Namenode;
use namenode::protocol::NamenodeProtocol;

/// The requests of a namenode without spare datanodes are those of a house.
pub fn house_laws_stand()
    ensures offer { (h : MemoryNamenode NoSpares)
        → ⟦<House as NamenodeProtocol>⟧.offer h ≡ empty_offer (house_of h) }
    ensures token { (h : MemoryNamenode NoSpares)
        → ⟦<House as NamenodeProtocol>⟧.token h ≡ (house_of h).token }
    ensures entry { (h : MemoryNamenode NoSpares)
        → ⟦<House as Namenode>⟧.entry h ≡ (house_of h).entry }
    ensures lists { (a b : MemoryNamenode NoSpares) (asked : Ask) (came : Option Offer)
        → ⟦<House as NamenodeProtocol>⟧.lists a asked came b
        → Houses.Lists (house_of a) came (house_of b) }
    ensures lists_back { (a b : MemoryNamenode NoSpares) (asked : Ask) (came : Option Offer)
        → Houses.Lists (house_of a) came (house_of b)
        → ⟦<House as NamenodeProtocol>⟧.lists a asked came b }
    ensures stamps { (a b : MemoryNamenode NoSpares) (size : ℕ) (came : Option (ℕ × List ℕ))
        → ⟦<House as NamenodeProtocol>⟧.stamps a size came b
        → Houses.Stamps (house_of a) came (house_of b) }
    ensures stamps_back { (a b : MemoryNamenode NoSpares) (size : ℕ) (came : Option (ℕ × List ℕ))
        → Houses.Stamps (house_of a) came (house_of b)
        → ⟦<House as NamenodeProtocol>⟧.stamps a size came b }
    ensures updates { (a b : MemoryNamenode NoSpares) (new : Entry) (accepted : Bool)
        → ⟦<House as NamenodeProtocol>⟧.updates a new accepted b
        → Houses.Updates (house_of a) new accepted (house_of b) }
    ensures updates_back { (a b : MemoryNamenode NoSpares) (new : Entry) (accepted : Bool)
        → Houses.Updates (house_of a) new accepted (house_of b)
        → ⟦<House as NamenodeProtocol>⟧.updates a new accepted b }
{}

/// The requests of a namenode with spare datanodes are those of a pool.
pub fn pool_laws_stand()
    ensures offer { (p : MemoryNamenode SpareDatanodes)
        → ⟦<Pool as NamenodeProtocol>⟧.offer p ≡ offer_of (pool_of p) }
    ensures token { (p : MemoryNamenode SpareDatanodes)
        → ⟦<Pool as NamenodeProtocol>⟧.token p ≡ (pool_of p).book.token }
    ensures entry { (p : MemoryNamenode SpareDatanodes)
        → ⟦<Pool as Namenode>⟧.entry p ≡ (pool_of p).book.entry }
    ensures lists { (a b : MemoryNamenode SpareDatanodes) (asked : Ask) (came : Option Offer)
        → ⟦<Pool as NamenodeProtocol>⟧.lists a asked came b
        → Pools.Lists (pool_of a) asked came (pool_of b) }
    ensures lists_back { (a b : MemoryNamenode SpareDatanodes) (asked : Ask) (came : Option Offer)
        → Pools.Lists (pool_of a) asked came (pool_of b)
        → ⟦<Pool as NamenodeProtocol>⟧.lists a asked came b }
    ensures stamps { (a b : MemoryNamenode SpareDatanodes) (size : ℕ) (came : Option (ℕ × List ℕ))
        → ⟦<Pool as NamenodeProtocol>⟧.stamps a size came b
        → Pools.Stamps (pool_of a) came (pool_of b) }
    ensures stamps_back { (a b : MemoryNamenode SpareDatanodes) (size : ℕ)
        (came : Option (ℕ × List ℕ))
        → Pools.Stamps (pool_of a) came (pool_of b)
        → ⟦<Pool as NamenodeProtocol>⟧.stamps a size came b }
    ensures updates { (a b : MemoryNamenode SpareDatanodes) (new : Entry) (accepted : Bool)
        → ⟦<Pool as NamenodeProtocol>⟧.updates a new accepted b
        → Pools.Updates (pool_of a) new accepted (pool_of b) }
    ensures updates_back { (a b : MemoryNamenode SpareDatanodes) (new : Entry) (accepted : Bool)
        → Pools.Updates (pool_of a) new accepted (pool_of b)
        → ⟦<Pool as NamenodeProtocol>⟧.updates a new accepted b }
{}
