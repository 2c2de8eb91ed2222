//! How much memory a writer has of its own, besides what it is lent.
use held::table::{HeldPacket, SLOTS};
use pipeline::nodes::PLACES;
use proto::datanode::Datanode;
use std::mem::{size_of, size_of_val};
use writer::state::Writer;

/// A pipeline, the next one, those that failed, and the list that the namenode offers.
const TABLES: usize = 4;

/// Tells the octets of the writer itself and of its tables, which are all that it ever allocates.
pub fn show_memory(rt: &HostRuntime, writer: &Writer) -> anyhow::Result<()> {
    let own = size_of_val(writer);
    let packets = SLOTS.saturating_mul(size_of::<HeldPacket>());
    let datanodes = TABLES
        .saturating_mul(PLACES)
        .saturating_mul(size_of::<Datanode>());
    let all = own.saturating_add(packets).saturating_add(datanodes);
    println!(rt;
        "writer {own}, held packets {packets}, datanodes {datanodes}: {all} octets besides what it is lent"
    )?;
    Ok(())
}
