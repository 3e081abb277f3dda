// Edges: where lifetimes begin and end.
ghost use Rattle.std.specs.Prelude.{◌≡◌, ◌<◌, ◌≤◌, ◌↔◌, IsTrue, length};

use crate::cells::Cells;
use crate::time::Time;
use std::alloc::AllocError;

/// An edge of an event. An interval has the event's start as `sync` and its end as `other`, a start edge the start and infinity,
/// and an end edge the end as `sync` and the start as `other`.
#[derive(Drop)]
pub struct Edge {
    pub sync: Time,
    pub other: Time,
    pub cells: Cells,
}

impl Edge {
    /// Whether the edge ends an event that began before.
    pub fn is_end(&self) -> bool
        ensures { IsTrue result ↔ (self.now.other < self.now.sync) }
    {
        self.other < self.sync
    }
}

/// A copy is the same edge. None of at most 4 cells fails.
impl Clone for Edge {
    ghost is_clone = { λ edge copy. copy ≡ edge };

    ghost is_infallible = { λ edge. length edge.cells ≤ 4 };

    fn clone(&self) -> Result<Edge, AllocError> {
        Ok(Edge {
            sync: self.sync,
            other: self.other,
            cells: self.cells.clone()?,
        })
    }
}

/// A row of cells that is alive, with the start of its lifetime.
#[derive(Drop)]
pub struct HeldRow {
    pub cells: Cells,
    pub start: Time,
}

/// A copy is the same row. None of at most 4 cells fails.
impl Clone for HeldRow {
    ghost is_clone = { λ row copy. copy ≡ row };

    ghost is_infallible = { λ row. length row.cells ≤ 4 };

    fn clone(&self) -> Result<HeldRow, AllocError> {
        Ok(HeldRow {
            cells: self.cells.clone()?,
            start: self.start,
        })
    }
}
