// How a run ends.
ghost use Rattle.std.specs.Prelude.{◌≡◌};
ghost use Rattle.tempo_cli.specs.Feeding.{status_at};
ghost use Rattle.tempo_cli.specs.declared.status.Status.TheVariants as statuses;

use plan_model::QueryFault;
use row_reader::BadLine;
use tempo_engine::EngineFault;
use tw_rows::{Memory, Time};
use wire_lines::{ReadFailed, WriteFailed};

/// How a run ends. The number of a line counts from 1, empty lines and a header too.
#[derive(Clone, Copy, Debug, PartialEq, Eq)]
pub enum Status {
    /// The input was read to its end, and all that it calls for was written; or the plan was.
    Done,
    /// The words are not those of the command.
    BadWords,
    /// The query does not parse, or cannot be planned.
    BadQuery(QueryFault),
    /// This line is bad.
    Malformed {
        line: u64,
        cause: BadLine,
    },
    /// This line is older than its stream's bound, and late lines are refused.
    Late {
        line: u64,
        time: Time,
        bound: Time,
    },
    /// At this punctuation this node has no rows at this time: a group has too many rows, or a sum is too great.
    Overflow {
        punct: Time,
        node: usize,
        time: Time,
    },
    /// The input has more than 2^40 bytes.
    InputTooLong,
    ReadFault,
    WriteFault,
    /// Out of memory.
    Memory,
    /// This line is the first that is none of a checkpoint of the query and these options; or the checkpoint ended at it, and no
    /// engine can be at work so.
    BadCheckpoint {
        line: u64,
    },
}

impl Status {
    ghost use Rattle.tempo_cli.specs.Status.{exit_of};

    /// The exit number of the program.
    pub fn number(&self) -> u8
        ensures { result ≡ exit_of self.now }
    {
        match self {
            Status::Done => 0,
            Status::BadWords => 2,
            Status::BadQuery(_) => 3,
            Status::Malformed { .. } => 4,
            Status::Late { .. } => 5,
            Status::Overflow { .. } => 6,
            Status::InputTooLong => 7,
            Status::ReadFault => 8,
            Status::WriteFault => 9,
            Status::Memory => 10,
            Status::BadCheckpoint { .. } => 12,
        }
    }
}

impl From<Memory> for Status {
    ghost from_gives = { λ _ status. status ≡ statuses.Memory };

    fn from(_memory: Memory) -> Status {
        Status::Memory
    }
}

impl From<ReadFailed> for Status {
    ghost from_gives = { λ _ status. status ≡ statuses.ReadFault };

    fn from(_failed: ReadFailed) -> Status {
        Status::ReadFault
    }
}

impl From<WriteFailed> for Status {
    ghost from_gives = { λ _ status. status ≡ statuses.WriteFault };

    fn from(_failed: WriteFailed) -> Status {
        Status::WriteFault
    }
}

impl From<EngineFault> for Status {
    ghost from_gives = { λ fault status. status ≡ status_at fault };

    fn from(fault: EngineFault) -> Status {
        match fault {
            EngineFault::Bad { line, cause } => Status::Malformed { line, cause },
            EngineFault::Late { line, time, bound } => Status::Late { line, time, bound },
            EngineFault::Overflow {
                punctuation,
                node,
                time,
            } => Status::Overflow {
                punct: punctuation,
                node,
                time,
            },
            EngineFault::Memory => Status::Memory,
        }
    }
}
