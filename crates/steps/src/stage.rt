// Which calls can be done.
ghost use Rattle.std.specs.Prelude.{◌≡◌};
ghost use Rattle.calls.specs.Kinds.{kind_number};
ghost use Rattle.steps.specs.Stages.{stage_calls, OthersPass};

use calls::kind::Kind;

#[derive(Clone, Copy, Debug, PartialEq, Eq)]
pub enum Stage {
    // files in directory 0 only: no directory is made, nothing renamed, no file synced by itself
    First,
    Whole,
}

impl Stage {
    // Can calls of a kind be done?
    pub fn can(self, kind: Kind) -> bool
        ensures { result ≡ stage_calls self (kind_number kind) }
    {
        match self {
            Stage::First => !matches!(kind, Kind::MakeDir | Kind::Rename | Kind::SyncFile),
            Stage::Whole => true,
        }
    }
}

// What a stage says of numbers that no call has.
pub fn others_pass()
    ensures { OthersPass }
{}
