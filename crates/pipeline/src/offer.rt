//! The list of datanodes that a namenode holds, read into a table.
ghost use Rattle.std.specs.Prelude.{◌≡◌, ◌≤◌, length, is_some, vec_capacity};
ghost use Rattle.pipeline.specs.Offers.{row_in, NodeRead, RowsRead, OfferRead};

use crate::nodes::{NodeTable, PLACES};
use namenode::protocol::{NamenodeProtocol, Offered};
use proto::datanode::Datanode;
use proto::token::Token;

/// The datanode of a row, where the row is in form.
pub fn read_node(row: Offered<'_>) -> Option<Datanode>
    ensures { NodeRead (row_in row.entry) result }
{
    let storage_type = u8::try_from(row.storage_type).ok()?;
    Datanode::new(row.info, row.storage_id, storage_type)
}

// Puts the datanodes of the list into the table, where all of them are in form.
fn read_rows<N: NamenodeProtocol>(namenode: &N, list: &mut NodeTable) -> Option<()>
    requires { length (N.NamenodeProtocol.offer namenode.now).rows ≤ vec_capacity list.old.rows }
    ensures rows { RowsRead (N.NamenodeProtocol.offer namenode.now).rows list.new.rows.items
        (is_some result) }
    ensures capacity { vec_capacity list.new.rows ≡ vec_capacity list.old.rows }
{
    list.clear();
    // By position: the interface lends the rows one by one, so that a namenode need not hold a table of them.
    for i in 0..namenode.offered_len() {
        let node = read_node(namenode.offered(i)?)?;
        list.push(&node);
    }
    Some(())
}

/// Reads the list that the namenode holds into `list`, and answers its token: nothing where the list has not one to eight datanodes, or
/// one of them or the token is not in form.
// Of whatever is wrong with a list, the interface knows one cause (`NoDatanode::List`).
pub fn read_offer<N: NamenodeProtocol>(namenode: &N, list: &mut NodeTable) -> Option<Token>
    ensures read { OfferRead (N.NamenodeProtocol.offer namenode.now) list.new.rows.items result }
    ensures capacity { vec_capacity list.new.rows ≡ vec_capacity list.old.rows }
{
    let count = namenode.offered_len();
    if count < 1 || count > PLACES {
        return None;
    }
    read_rows(namenode, list)?;
    Token::new(namenode.offered_token())
}
