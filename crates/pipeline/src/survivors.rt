//! Which datanodes of a pipeline are left after a failure, and which are gone.
ghost use Rattle.std.specs.Prelude.{◌≡◌, ◌<◌, ◌≤◌, [], ◌∷◌, ◌++◌, length, vec_len, vec_capacity};
ghost use Rattle.pipeline.specs.Survivors.{survivors, failed_of};

use crate::nodes::NodeTable;
use ack::tally::FailedNodes;
use proto::datanode::Datanode;

// Puts a datanode behind those that are gone or behind those that are left.
fn assign(node: &Datanode, is_failed: bool, left: &mut NodeTable, gone: &mut NodeTable)
    requires { (vec_len left.old.rows < vec_capacity left.old.rows)
        × (vec_len gone.old.rows < vec_capacity gone.old.rows) }
    ensures left { left.new.rows.items
        ≡ left.old.rows.items ++ survivors (is_failed ∷ []) (node.now ∷ []) }
    ensures gone { gone.new.rows.items
        ≡ gone.old.rows.items ++ failed_of (is_failed ∷ []) (node.now ∷ []) }
    ensures rooms { (vec_capacity left.new.rows ≡ vec_capacity left.old.rows)
        × (vec_capacity gone.new.rows ≡ vec_capacity gone.old.rows) }
{
    if is_failed {
        gone.push(node);
    } else {
        left.push(node);
    }
}

/// Fills `left` with the datanodes whose positions did not fail, and `gone` with the others. The positions are those of `nodes`, which
/// stays as it is: a list that shrinks under the positions would give another datanode for each one past the first.
pub fn split(nodes: &[Datanode], failed: &FailedNodes, left: &mut NodeTable, gone: &mut NodeTable)
    requires { length nodes.now ≤ 8 }
    ensures left { left.new.rows.items ≡ survivors failed.now.positions nodes.now }
    ensures gone { gone.new.rows.items ≡ failed_of failed.now.positions nodes.now }
    ensures few { (vec_len left.new.rows ≤ 8) × (vec_len gone.new.rows ≤ 8) }
    ensures rooms { (vec_capacity left.new.rows ≡ vec_capacity left.old.rows)
        × (vec_capacity gone.new.rows ≡ vec_capacity gone.old.rows) }
{
    left.clear();
    gone.clear();
    for (node, is_failed) in nodes.iter().zip(&failed.positions) {
        assign(node, *is_failed, left, gone);
    }
}
