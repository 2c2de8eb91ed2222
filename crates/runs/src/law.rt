//! The law of every run.
ghost use Rattle.runs.specs.Begins.{Begins};
ghost use Rattle.runs.specs.Law.{Law};
ghost use Rattle.runs.specs.Runs.{Point, Run};
ghost use Rattle.runs.specs.declared.command.Command.{Command};
ghost use Rattle.runs.specs.declared.command.Outcome.{Outcome};
ghost use Rattle.std.specs.Prelude.{List};
ghost use Rattle.writer.specs.declared.opening.Opening.{Opening};

use chain::meaning::Chain;
use namenode::meaning::Namenode;

/// After an opening without refusal, whatever calls follow in whatever order, accepted or refused, over every pipeline and namenode that
/// mean what theirs do: no accepted byte is lost, doubled or put in another place.
pub fn law_stands<C: Chain, N: Namenode>()
    ensures { (opening : Opening) (link : C) (p q : Point C N)
        (calls : List Command) (answers : List Outcome)
        → Begins C.Link C.Chain.seen N.Namenode.entry opening link p
        → Run C.Link N.NamenodeProtocol C.Chain.seen calls p answers q
        → Law C.Chain.seen N.Namenode.entry q }
{}
