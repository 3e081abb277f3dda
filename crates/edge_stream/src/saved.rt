// What an operator keeps, for a checkpoint and back, and how a step or a load can fail.
ghost use Rattle.std.specs.Prelude.{◌≡◌, [], ◌∷◌, ◌++◌, IfOk, OnOk, OnErr};
ghost use Rattle.edge_stream.specs.declared.saved.LoadFault.TheVariants as loads;
ghost use Rattle.edge_stream.specs.declared.saved.StepFault.TheVariants as steps;

use std::alloc::Global;
use std::error::Error;
use std::fmt;
use std::marker::Model;
use tw_rows::{Cells, Memory, Time};

/// One entry that an operator keeps: which of its parts it belongs to, two times, and cells. What
/// they mean is told by the operator.
pub struct SavedEntry {
    pub part: u64,
    pub sync: Time,
    pub other: Time,
    pub cells: Cells,
}

// By hand, so that crates that let one go cite this and not the destructors of its parts.
impl Drop for SavedEntry {
    fn drop(self) {
        let SavedEntry {
            part: _,
            sync: _,
            other: _,
            cells: _cells,
        } = self;
    }
}

/// The entries that an operator keeps, in the order in which it saved them. Contracts see the list of
/// them.
pub struct Saved {
    entries: Vec<SavedEntry>,
}

// By hand, so that crates that let one go cite this and not the destructors of its parts.
impl Drop for Saved {
    fn drop(self) {
        let Saved { entries: _entries } = self;
    }
}

impl Model for Saved {
    ghost use Rattle.std.specs.Prelude.{List};
    ghost use Rattle.edge_stream.specs.declared.saved.SavedEntry.{SavedEntry as Item};

    ghost Value = { List Item };

    ghost view = { λ s. s.entries.items };
}

impl Saved {
    /// No entry.
    pub fn new(alloc: Global) -> Saved
        ensures { result ≡ [] }
    {
        Saved {
            entries: Vec::new(alloc),
        }
    }

    /// No entry, with room for `count` of them, which are pushed without more memory.
    pub fn with_capacity(alloc: Global, count: usize) -> Result<Saved, Memory>
        ensures { IfOk result (λ saved. saved ≡ []) }
    {
        Ok(Saved {
            entries: Vec::with_capacity(alloc, count)?,
        })
    }

    /// Adds the entry last. Out of memory the entries are as they were.
    pub fn push(&mut self, entry: SavedEntry) -> Result<(), Memory>
        ensures ok { OnOk result (self.new ≡ self.old ++ entry ∷ []) }
        ensures err { OnErr result (self.new ≡ self.old) }
    {
        self.entries.push(entry)?;
        Ok(())
    }

    /// Adds an entry of that part last, with these times and a copy of the cells. Out of memory the
    /// entries are as they were.
    pub fn push_cells(
        &mut self,
        part: u64,
        sync: Time,
        other: Time,
        cells: &Cells,
    ) -> Result<(), Memory>
        ensures ok { OnOk result (self.new ≡ self.old
            ++ record { part = part; sync = sync; other = other; cells = cells.now } ∷ []) }
        ensures err { OnErr result (self.new ≡ self.old) }
    {
        let cells = cells.clone()?;
        self.push(SavedEntry {
            part,
            sync,
            other,
            cells,
        })
    }

    /// The entries in order.
    pub fn entries(&self) -> &[SavedEntry]
        ensures { result.now ≡ self.now }
    {
        &self.entries
    }
}

/// Whose row the cells of a saved part are.
#[derive(Clone, Copy, Debug, PartialEq, Eq)]
pub enum PartRow {
    /// A row of the left child.
    Left,
    /// A row of the right child.
    Right,
    /// A row of the node itself, with the key columns of the left key.
    Own,
    /// A row of the node itself, whose key columns are its first ones.
    KeyFirst,
}

/// Why a state was not loaded. The operator then has its opening state.
#[derive(Clone, Copy, Debug, PartialEq, Eq)]
pub enum LoadFault {
    /// The entries are no state that the operator can have.
    NotState,
    Memory,
}

/// Why a step gave no edges.
#[derive(Clone, Copy, Debug, PartialEq, Eq)]
pub enum StepFault {
    /// A group is undefined at this time: it has more than 2^62 rows, or a sum that is no number of 64 bits.
    Overflow { time: Time },
    Memory,
}

impl fmt::Display for LoadFault {
    fn fmt<W: fmt::Write>(&self, f: &mut fmt::Formatter<W>) -> fmt::Result {
        match self {
            LoadFault::NotState => write!(f, "the entries are no state of the operator"),
            LoadFault::Memory => write!(f, "no memory"),
        }
    }
}

impl fmt::Display for StepFault {
    fn fmt<W: fmt::Write>(&self, f: &mut fmt::Formatter<W>) -> fmt::Result {
        match self {
            StepFault::Overflow { time } => write!(
                f,
                "a total passed its limits at {}",
                time.word()
            ),
            StepFault::Memory => write!(f, "no memory"),
        }
    }
}

impl Error for LoadFault {}

impl Error for StepFault {}

impl From<Memory> for LoadFault {
    ghost from_gives = { λ _ fault. fault ≡ loads.Memory };

    fn from(_memory: Memory) -> LoadFault {
        LoadFault::Memory
    }
}

impl From<Memory> for StepFault {
    ghost from_gives = { λ _ fault. fault ≡ steps.Memory };

    fn from(_memory: Memory) -> StepFault {
        StepFault::Memory
    }
}
