// How a run ends that keeps checkpoints.
ghost use Rattle.std.specs.Prelude.{◌≡◌};
ghost use Rattle.tempo_cli.specs.declared.status.Status.TheVariants as statuses;
ghost use Rattle.tempo_cli.specs.declared.kept_status.KeptStatus.TheVariants as kept;

use crate::Status;
use kept_wire::MediumFailed;
use tw_rows::Memory;
use wire_lines::{ReadFailed, WriteFailed};

/// How a run ends that keeps checkpoints.
#[derive(Clone, Copy, Debug, PartialEq, Eq)]
pub enum KeptStatus {
    /// As any run. Done is told at the end of the input, where its whole lines were taken and a checkpoint was kept.
    Ended(Status),
    /// FILE could not be read or replaced, or the output could not be cut or brought to the disk. The last checkpoint stands.
    CheckpointFailed,
}

impl KeptStatus {
    ghost use Rattle.tempo_cli.specs.KeptStatus.{kept_exit};

    /// The exit number of the program.
    pub fn number(&self) -> u8
        ensures { result ≡ kept_exit self.now }
    {
        match self {
            KeptStatus::Ended(status) => status.number(),
            KeptStatus::CheckpointFailed => 13,
        }
    }
}

impl From<Status> for KeptStatus {
    ghost from_gives = { λ status kept_as. kept_as ≡ kept.Ended status };

    fn from(status: Status) -> KeptStatus {
        KeptStatus::Ended(status)
    }
}

impl From<Memory> for KeptStatus {
    ghost from_gives = { λ _ kept_as. kept_as ≡ kept.Ended statuses.Memory };

    fn from(_memory: Memory) -> KeptStatus {
        KeptStatus::Ended(Status::Memory)
    }
}

impl From<ReadFailed> for KeptStatus {
    ghost from_gives = { λ _ kept_as. kept_as ≡ kept.Ended statuses.ReadFault };

    fn from(_failed: ReadFailed) -> KeptStatus {
        KeptStatus::Ended(Status::ReadFault)
    }
}

impl From<WriteFailed> for KeptStatus {
    ghost from_gives = { λ _ kept_as. kept_as ≡ kept.Ended statuses.WriteFault };

    fn from(_failed: WriteFailed) -> KeptStatus {
        KeptStatus::Ended(Status::WriteFault)
    }
}

impl From<MediumFailed> for KeptStatus {
    ghost from_gives = { λ _ kept_as. kept_as ≡ kept.CheckpointFailed };

    fn from(_failed: MediumFailed) -> KeptStatus {
        KeptStatus::CheckpointFailed
    }
}
