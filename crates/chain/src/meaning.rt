//! A chain: a link whose far end is known by what it keeps.
ghost use Rattle.std.specs.Prelude.{◌≡◌, ℕ, Bool, List, Option};
ghost use Rattle.proto.specs.declared.datanode.Datanode.{Datanode};
ghost use Rattle.chain.specs.Acts.{Came};
ghost use Rattle.chain.specs.Meaning.{Seen, SetsUp, Puts, Nexts};

use crate::link::Link;

pub trait Chain: Link {
    /// Bytes kept by all datanodes, packets pending, number of datanodes, chunk size.
    ghost seen: { Self → Seen };

    ghost setting: { (a b : Self) (node : Datanode) (request : List ℕ) (least : ℕ)
        (came : Option (List ℕ))
        → Self.Link.sets a node request least came b
        → SetsUp request least came (seen a) (seen b) };

    ghost putting: { (a b : Self) (frame : List ℕ) (taken : Bool)
        → Self.Link.puts a frame taken b
        → Puts frame taken (seen a) (seen b) };

    ghost answering: { (a b : Self) (came : Came)
        → Self.Link.nexts a came b
        → Nexts came (seen a) (seen b) };

    ghost transferring: { (a b : Self) (node : Datanode) (request : List ℕ) (came : Option (List ℕ))
        → Self.Link.transfers a node request came b
        → seen b ≡ seen a };
}
