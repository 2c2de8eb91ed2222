//! The policy of replacing a failed datanode, as hdfs-default.xml words it.
ghost use Rattle.std.specs.Prelude.{◌≡◌};
ghost use Rattle.replace.specs.Decision.{should_replace};

/// When a datanode that has left the pipeline is replaced.
#[derive(Clone, Copy, Debug, PartialEq, Eq)]
pub enum Policy {
    /// The feature is switched off in the entire site.
    Disable,
    /// A new datanode is never added.
    Never,
    /// A new datanode is added where few are left, or where the block is appended.
    Default,
    /// A new datanode is added whenever one was removed.
    Always,
}

/// What a writer does when a datanode of its pipeline fails.
#[derive(Clone, Copy, Debug, PartialEq, Eq)]
pub struct ReplaceDatanodeOnFailure {
    policy: Policy,
    best_effort: bool,
}

impl ReplaceDatanodeOnFailure {
    pub fn new(policy: Policy, best_effort: bool) -> Self
        ensures { (result.policy ≡ policy) × (result.best_effort ≡ best_effort) }
    {
        ReplaceDatanodeOnFailure {
            policy,
            best_effort,
        }
    }

    pub fn policy(&self) -> Policy
        ensures { result ≡ self.now.policy }
    {
        self.policy
    }

    /// Whether the write goes on with the datanodes that are left where the replacement fails as well.
    pub fn is_best_effort(&self) -> bool
        ensures { result ≡ self.now.best_effort }
    {
        self.best_effort
    }

    /// Whether a new datanode is asked for.
    ///
    /// `replication` is how many datanodes the block should have, `existing` how many are left, and
    /// `initial_length` how many bytes the block had when it was opened: above 0 it is appended.
    /// With no datanode left there is none to copy the block from, so nothing is replaced.
    pub fn should_replace(&self, replication: u32, existing: usize, initial_length: u64) -> bool
        ensures { result ≡ should_replace self.now.policy replication existing initial_length }
    {
        let replication = replication as usize;
        if existing == 0 || existing >= replication {
            return false;
        }
        match self.policy {
            Policy::Disable | Policy::Never => false,
            Policy::Always => true,
            Policy::Default => {
                replication >= 3 && (existing <= replication / 2 || initial_length > 0)
            }
        }
    }
}
