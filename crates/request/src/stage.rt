//! The stages of a block's construction that a request can name.
ghost use Rattle.std.specs.Prelude.{◌≡◌};
ghost use Rattle.request.specs.Stages.{stage_number};

/// Why a pipeline is set up.
#[derive(Clone, Copy, Debug, PartialEq, Eq)]
pub enum Stage {
    /// For a block that has bytes already.
    SetupAppend,
    /// For a block whose pipeline has failed.
    SetupStreamingRecovery,
    /// For a new block.
    SetupCreate,
}

/// Its number in `BlockConstructionStage`.
impl From<Stage> for u64 {
    ghost from_gives = { λ stage number. number ≡ stage_number stage };

    fn from(stage: Stage) -> u64 {
        match stage {
            Stage::SetupAppend => 0,
            Stage::SetupStreamingRecovery => 3,
            Stage::SetupCreate => 6,
        }
    }
}
