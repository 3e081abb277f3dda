// Rows with their open starts.
ghost use Rattle.std.specs.Prelude.{◌≡◌, ◌<◌, ◌+◌, ◌-◌, ◌^◌, ◌++◌, ◌∷◌, [], ℕ, suc};
ghost use Rattle.std.specs.Prelude.{cond, length, min, List, IfOk, OnOk};
ghost use Rattle.tw_rows.specs.Instant.{inf};
ghost use Rattle.tw_rows.specs.SameCells.{same_cells as same};
ghost use Rattle.tw_rows.specs.declared.edge.HeldRow.{HeldRow};
ghost use Rattle.edge_history.specs.Opens.{bare, started_rows};
ghost use Rattle.key_nodes.specs.Coalesced.{how_often, coalesced};
ghost use Rattle.sweep_laws.specs.Changes.{TakeAtMost};
ghost use Rattle.sweep_laws.specs.Queues.{Cells as Row, AreMoves};
ghost use Rattle.sweep_laws.specs.Sweeps.{Tells};
ghost use Rattle.sweep_laws.specs.Saving.{starts_of, rows_of};
ghost use Rattle.edge_stream.specs.Entries.{entries_of, part_of};
ghost use Rattle.synopsis.specs.Holding.{AreApart};
ghost use Rattle.synopsis.specs.Queued.{queue_of, rows_at, AreQueues, EdgesLead};

use crate::edges::tell_edges;
use crate::few_rows::FewRows;
use crate::held::Held;
use crate::in_place::tell_in_place;
use crate::instant::tell_instant;
use crate::queues::open_row;
use crate::saving::{save_starts, start_count};
use edge_stream::{Saved, edges_of_part};
use indexmap::IndexMap;
use std::alloc::Global;
use std::marker::Model;
use tw_rows::{Cells, Edge, Memory, Time};

/// Rows that are open, each as often as it has an open start. A row is found by its cells, and its starts stand in a queue,
/// of which the first is the first to end. Contracts see the rows one by one, those of one queue in its order.
pub struct RowQueues {
    alloc: Global,
    held: Held,
}

// By hand, so that crates that let one go cite this and not the destructors of its parts.
impl Drop for RowQueues {
    fn drop(self) {
        let RowQueues {
            alloc: _,
            held: _held,
        } = self;
    }
}

impl Model for RowQueues {
    ghost use Rattle.std.specs.Prelude.{List, ◌++◌};
    ghost use Rattle.tw_rows.specs.declared.edge.HeldRow.{HeldRow};
    ghost use Rattle.synopsis.specs.Kept.{rows_in, EachIsOpen};

    ghost Value = { List HeldRow };

    ghost view = { λ q. q.held.few ++ rows_in q.held.starts.entries };

    ghost invariant = { λ q. EachIsOpen q.held.starts };
}

// The rows that the edges start.
fn queues_of(alloc: Global, edges: &[Edge]) -> Result<RowQueues, Memory>
    ensures { IfOk result (λ q. (c : Row) → queue_of q c ≡ queue_of (rows_of edges.now) c) }
{
    let mut queues = RowQueues::new(alloc);
    for edge in edges {
        queues.put(&edge.cells, edge.sync)?;
    }
    Ok(queues)
}

impl RowQueues {
    /// No row is open.
    pub fn new(alloc: Global) -> RowQueues
        ensures { result ≡ [] }
    {
        RowQueues {
            alloc,
            held: Held {
                few: FewRows::new(alloc),
                starts: IndexMap::new(alloc),
            },
        }
    }

    /// Ends each row that was lost at an instant, for its first open start, and starts each that was won. What ends and
    /// starts as well shows nothing. The edges are the news of the coalesced events of whatever rows these moves lead to.
    pub fn move_rows(
        &mut self,
        answer: &mut Vec<Edge>,
        at: Time,
        lost: &[Cells],
        won: &[Cells],
    ) -> Result<(), Memory>
        ensures moved { OnOk result ((f : ℕ → List Row) → at < inf →
            AreMoves same f at (λ r. how_often same r lost.now) (λ r. how_often same r won.now) →
            AreQueues f at self.old → AreQueues f (suc at) self.new
            × Tells (coalesced same f) at (suc at) answer.old.items answer.new.items) }
        ensures rows { OnOk result (TakeAtMost self.old self.new (rows_at at won.now)) }
    {
        // Their calls tell the proof that no row stands twice.
        let _ = self.held.starts.len();
        tell_instant(&mut self.held, answer, self.alloc, at, lost, won)?;
        let _ = self.held.starts.len();
        Ok(())
    }

    /// Takes the edges of one instant: the row of each end is lost, and the row of each start is won.
    pub fn move_edges(
        &mut self,
        answer: &mut Vec<Edge>,
        at: Time,
        now: &[Edge],
    ) -> Result<(), Memory>
        ensures moved { OnOk result ((f : ℕ → List Row) → at < inf →
            EdgesLead f at now.now → AreQueues f at self.old → AreQueues f (suc at) self.new
            × Tells (coalesced same f) at (suc at) answer.old.items answer.new.items) }
        ensures rows { OnOk result (TakeAtMost self.old self.new
            (rows_at at (bare (started_rows now.now)))) }
    {
        // Their calls tell the proof that no row stands twice.
        let _ = self.held.starts.len();
        tell_edges(&mut self.held, answer, self.alloc, at, now)?;
        let _ = self.held.starts.len();
        Ok(())
    }

    /// Takes the edges of one instant, and makes of them those to be emitted: an end names the first open start of its row.
    pub fn move_in_place(&mut self, at: Time, now: &mut [Edge]) -> Result<(), Memory>
        requires { AreApart now.old }
        ensures moved { OnOk result ((f : ℕ → List Row) → at < inf →
            EdgesLead f at now.old → AreQueues f at self.old → AreQueues f (suc at) self.new
            × Tells (coalesced same f) at (suc at) [] now.new) }
        ensures rows { OnOk result (TakeAtMost self.old self.new
            (rows_at at (bare (started_rows now.old)))) }
    {
        // Their calls tell the proof that no row stands twice.
        let _ = self.held.starts.len();
        tell_in_place(&mut self.held, self.alloc, at, now)?;
        let _ = self.held.starts.len();
        Ok(())
    }

    // Puts a start last in the queue of its row.
    fn put(&mut self, cells: &Cells, start: Time) -> Result<(), Memory>
        ensures { OnOk result ((c : Row) → queue_of self.new c
            ≡ queue_of self.old c ++ cond (same cells.now c) (start ∷ []) []) }
    {
        // Their calls tell the proof that no row stands twice.
        let _ = self.held.starts.len();
        open_row(&mut self.held.starts, self.alloc, cells, start, 1)?;
        let _ = self.held.starts.len();
        Ok(())
    }

    /// How many starts are open, or the greatest number that there is room for. It goes from row to row.
    pub fn len(&self) -> u64
        ensures { result ≡ min (length self.now) (2 ^ 64 - 1) }
    {
        start_count(&self.held.starts).saturating_add(self.held.few.len() as u64)
    }

    /// Adds the open starts as entries of that part.
    pub fn save(&self, saved: &mut Saved, part: u64) -> Result<(), Memory>
        ensures { OnOk result (saved.new ≡ saved.old ++ entries_of part (starts_of self.now)) }
    {
        self.held.few.save(saved, part)?;
        save_starts(saved, part, &self.held.starts)?;
        Ok(())
    }

    /// The rows that the entries of that part start. The entries of one row are its queue, in their order.
    pub fn load(alloc: Global, saved: &Saved, part: u64) -> Result<RowQueues, Memory>
        ensures { IfOk result (λ q. (c : Row) →
            queue_of q c ≡ queue_of (rows_of (part_of part saved.now)) c) }
    {
        let edges = edges_of_part(alloc, saved, part)?;
        queues_of(alloc, &edges)
    }
}
