//! A namenode by its meaning: the entry of one block, which only an accepted update changes.
ghost use Rattle.std.specs.Prelude.{◌≡◌, ℕ, Bool, List, Option};
ghost use Rattle.namenode.specs.Entries.{Entry, Ask, Offer, Updates};

use crate::protocol::NamenodeProtocol;

pub trait Namenode: NamenodeProtocol {
    ghost entry: { Self → Entry };

    ghost listing: { (a b : Self) (asked : Ask) (came : Option Offer)
        → Self.NamenodeProtocol.lists a asked came b
        → entry b ≡ entry a };

    ghost stamping: { (a b : Self) (size : ℕ) (came : Option (ℕ × List ℕ))
        → Self.NamenodeProtocol.stamps a size came b
        → entry b ≡ entry a };

    ghost updating: { (a b : Self) (new : Entry) (accepted : Bool)
        → Self.NamenodeProtocol.updates a new accepted b
        → Updates new accepted (entry a) (entry b) };
}
