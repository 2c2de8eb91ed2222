//! What holds of every answer, whatever a datanode sends.
ghost use Rattle.ack.specs.Laws.{PackedVarints, RepliesJoin, FailedPositions, HighestPosition, Passing};

/// Packed numbers are varints one after another, replies add up however they are spread, and the failed positions are those of the known statuses
/// other than SUCCESS.
pub fn laws_stand()
    ensures packed { PackedVarints }
    ensures joins { RepliesJoin }
    ensures positions { FailedPositions }
    ensures highest { HighestPosition }
    ensures passing { Passing }
{}
