// The changelog lines of one instant at which each row that is touched ends or starts once: its edges are shown as they are, and
// no moves are gathered.
ghost use Rattle.std.specs.Prelude.{◌≡◌, List, ℕ, map, IsTrue, OnOk};
ghost use Rattle.std.specs.List.{dedup};
ghost use Rattle.std.specs.List.Sorted.{IsStrictlySortedBy};
ghost use Rattle.std.specs.Ordering.{eq_by_cmp};
ghost use Rattle.tw_rows.specs.Cells.{read_cells};
ghost use Rattle.tw_rows.specs.Rows.{row_cmp};
ghost use Rattle.plan_laws.specs.Places.{AreDistinct, EdgesArePlaced};
ghost use Rattle.egress.specs.Kept.{moves_of, rows_of};
ghost use Rattle.egress.specs.Showing.{StandOnce, EndsRows, StartsRows, ShowsMoves};

use crate::moves::counts_of;
use crate::open_rows::OpenRows;
use tw_rows::{Edge, Memory, TextTable, Time, same_cells};

// Whether no two edges beside each other are of one row. Of edges in the order of their rows no two are then.
pub(crate) fn are_single(edges: &[Edge]) -> bool
    ensures { IsTrue result → (texts : List (List ℕ)) → AreDistinct texts →
        EdgesArePlaced texts edges.now → StandOnce texts edges.now }
{
    for i in 1..edges.len() {
        let before = &edges[i - 1];
        let here = &edges[i];
        if same_cells(&before.cells, &here.cells) {
            return false;
        }
    }
    true
}

impl OpenRows {
    fn end_edges(&mut self, at: Time, edges: &[Edge], texts: &TextTable) -> Result<(), Memory>
        requires placed { EdgesArePlaced texts.now edges.now }
        requires ordered { IsStrictlySortedBy row_cmp (rows_of texts.now (map moves_of edges.now)) }
        ensures rows { OnOk result (EndsRows texts.now
            (map moves_of edges.now) at self.old self.new) }
        ensures kinds { self.new.kinds ≡ self.old.kinds }
    {
        // Its call tells the proof that the texts are distinct.
        let _ = texts.len();
        for edge in edges {
            let counts = counts_of(edge);
            let count = counts.ends.saturating_sub(counts.starts);
            self.end_row(at, &edge.cells, texts, count)?;
        }
        Ok(())
    }

    fn start_edges(&mut self, at: Time, edges: &[Edge], texts: &TextTable) -> Result<(), Memory>
        requires placed { EdgesArePlaced texts.now edges.now }
        requires ordered { IsStrictlySortedBy row_cmp (rows_of texts.now (map moves_of edges.now)) }
        ensures rows { OnOk result (StartsRows texts.now
            (map moves_of edges.now) at self.old self.new) }
        ensures kinds { self.new.kinds ≡ self.old.kinds }
    {
        // Its call tells the proof that the texts are distinct.
        let _ = texts.len();
        for edge in edges {
            let counts = counts_of(edge);
            let count = counts.starts.saturating_sub(counts.ends);
            self.start_row(at, &edge.cells, texts, count)?;
        }
        Ok(())
    }

    // Adds the lines of an instant, and keeps what is open after it, as `show_instant` does.
    pub(crate) fn show_singles(
        &mut self,
        at: Time,
        edges: &[Edge],
        texts: &TextTable,
    ) -> Result<(), Memory>
        requires placed { EdgesArePlaced texts.now edges.now }
        requires ordered { IsStrictlySortedBy row_cmp (rows_of texts.now (map moves_of edges.now)) }
        ensures instant { OnOk result (ShowsMoves texts.now
            (map moves_of edges.now) at self.old self.new) }
        ensures kinds { self.new.kinds ≡ self.old.kinds }
    {
        self.end_edges(at, edges, texts)?;
        self.start_edges(at, edges, texts)?;
        Ok(())
    }
}
