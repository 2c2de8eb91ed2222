//! Spare datanodes, and the list that they were offered in last.
ghost use Rattle.std.specs.Prelude.{◌≤◌, vec_capacity};

use proto::datanode::Datanode;

// In a file of its own, since what `choosing.rt` says rests on `specs/Pools.antt`, which speaks of this type.
/// Datanodes to spare. `offered` is the list that was handed out last: up to eight survivors and a spare.
#[derive(Drop)]
pub struct SpareDatanodes {
    pub(crate) spares: Vec<Datanode>,
    pub(crate) offered: Vec<Datanode>,
    ghost places: { 9 ≤ vec_capacity offered },
}
