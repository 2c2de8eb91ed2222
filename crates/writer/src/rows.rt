//! The datanodes of an opening, read into a table.
ghost use Rattle.std.specs.Prelude.{◌≡◌, ◌<◌, ◌≤◌, length, is_some, slice_index_or};
ghost use Rattle.pipeline.specs.Offers.{row_in, RowsRead};
ghost use Rattle.writer.specs.Opening.{rows_in};

use crate::opening::Opening;
use namenode::protocol::Offered;
use pipeline::nodes::NodeTable;
use pipeline::offer::read_node;

// Both ask for even lists: an opening with uneven ones is refused by a number of its own before.
impl<'a> Opening<'a> {
    // The datanode at that place of the three lists.
    fn row(self, i: usize) -> Offered<'a>
        requires { (i < length self.infos.now)
            × (length self.storage_ids.now ≡ length self.infos.now)
            × (length self.storage_types.now ≡ length self.infos.now) }
        ensures { row_in result ≡ slice_index_or (rows_in self.entry) i (row_in result) }
    {
        Offered {
            info: self.infos[i],
            storage_id: self.storage_ids[i],
            storage_type: u64::from(self.storage_types[i]),
        }
    }

    // Puts the datanodes into the table, where all of them are in form.
    pub(crate) fn read_nodes(self, list: &mut NodeTable) -> Option<()>
        requires infos_len_bound { length self.infos.now ≤ 8 }
        requires storage_ids_len { (length self.storage_ids.now ≡ length self.infos.now)
            × (length self.storage_types.now ≡ length self.infos.now) }
        ensures rows { RowsRead (rows_in self.entry) list.new.rows.items (is_some result) }
        ensures count { length list.new.rows.items ≤ length self.entry.infos.now }
    {
        list.clear();
        // By place, since the three lists lie apart.
        for i in 0..self.infos.len() {
            let node = read_node(self.row(i))?;
            list.push(&node);
        }
        Some(())
    }
}
