// How a step of a plan can fail.
ghost use Rattle.std.specs.Prelude.{◌≡◌, Some};
ghost use Rattle.dataflow.specs.Faults.{fault_text};
ghost use Rattle.dataflow.specs.declared.fault.PlanFault.TheVariants as faults;

use std::alloc::AllocFailed;
use std::error::Error;
use std::fmt;
use tw_rows::{Memory, Time};

/// Why a step of a plan gave no edges.
#[derive(Clone, Copy, Debug, PartialEq, Eq)]
pub enum PlanFault {
    /// A total of the node of that number has passed its limits at this time.
    Overflow { node: usize, time: Time },
    Memory,
}

impl fmt::Display for PlanFault {
    ghost output = { λ fault. Some (fault_text fault) };

    fn fmt<W: fmt::Write>(&self, f: &mut fmt::Formatter<W>) -> fmt::Result {
        match self {
            PlanFault::Overflow { node, time } => write!(
                f,
                "a total of node {} passed its limits at {}",
                node,
                time.word()
            ),
            PlanFault::Memory => write!(f, "no memory"),
        }
    }
}

impl Error for PlanFault {}

impl From<Memory> for PlanFault {
    ghost from_gives = { λ _ fault. fault ≡ faults.Memory };

    fn from(_memory: Memory) -> PlanFault {
        PlanFault::Memory
    }
}

impl<T: Drop> From<AllocFailed<T>> for PlanFault {
    ghost from_gives = { λ _ fault. fault ≡ faults.Memory };

    fn from(_failed: AllocFailed<T>) -> PlanFault {
        PlanFault::Memory
    }
}
