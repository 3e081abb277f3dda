// Why an engine takes no more lines.
ghost use Rattle.std.specs.Prelude.{◌≡◌};
ghost use Rattle.tempo_engine.specs.Faults.{unread, refused, undefined_at};

use dataflow::PlanFault;
use ingress::Refusal;
use row_reader::{BadLine, RowFault};
use tw_rows::Time;

/// Why an engine takes no more lines.
#[derive(Clone, Copy, Debug, PartialEq, Eq)]
pub enum EngineFault {
    /// The line of that number is bad.
    Bad {
        line: u64,
        cause: BadLine,
    },
    /// The line of that number is late: its time is below the bound of its stream.
    Late {
        line: u64,
        time: Time,
        bound: Time,
    },
    /// At a punctuation a node is undefined: this is the least such node, with its least such time.
    Overflow {
        punctuation: Time,
        node: usize,
        time: Time,
    },
    /// Out of memory.
    Memory,
}

impl EngineFault {
    // Of a line that was not read.
    pub(crate) fn of_row(line: u64, fault: &RowFault) -> EngineFault
        ensures { result ≡ unread line fault.now }
    {
        match fault {
            RowFault::Bad(cause) => EngineFault::Bad {
                line,
                cause: *cause,
            },
            RowFault::Memory => EngineFault::Memory,
        }
    }

    // Of a line that was refused.
    pub(crate) fn of_refusal(line: u64, refusal: &Refusal) -> EngineFault
        ensures { result ≡ refused line refusal.now }
    {
        match refusal {
            Refusal::Late { time, bound } => EngineFault::Late {
                line,
                time: *time,
                bound: *bound,
            },
            Refusal::NoStart => EngineFault::Bad {
                line,
                cause: BadLine::NoStart,
            },
            Refusal::Memory => EngineFault::Memory,
        }
    }

    // Of a punctuation that was not worked through.
    pub(crate) fn of_plan(punctuation: Time, fault: &PlanFault) -> EngineFault
        ensures { result ≡ undefined_at punctuation fault.now }
    {
        match fault {
            PlanFault::Overflow { node, time } => EngineFault::Overflow {
                punctuation,
                node: *node,
                time: *time,
            },
            PlanFault::Memory => EngineFault::Memory,
        }
    }
}
