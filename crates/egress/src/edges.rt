// The changelog lines of one instant, from its edges: which way they are made, by how many edges there are and how often a row
// comes.
ghost use Rattle.std.specs.Prelude.{◌≡◌, [], ◌∷◌, OnOk};
ghost use Rattle.tw_rows.specs.Cells.{ArePlaced};
ghost use Rattle.plan_laws.specs.Places.{EdgesArePlaced};
ghost use Rattle.egress.specs.Showing.{ShowsInstant};

use crate::moves::gather;
use crate::open_rows::OpenRows;
use crate::order::sort_by_row;
use crate::singles::are_single;
use tw_rows::{Edge, Memory, TextTable, Time};

impl OpenRows {
    // Adds the line of an instant with one edge: its row ends once, or starts once.
    fn show_edge(&mut self, at: Time, edge: &Edge, texts: &TextTable) -> Result<(), Memory>
        requires { ArePlaced texts.now edge.now.cells }
        ensures instant { OnOk result (ShowsInstant texts.now
            (edge.now ∷ []) at self.old self.new) }
        ensures kinds { self.new.kinds ≡ self.old.kinds }
    {
        // Its call tells the proof that the texts are distinct.
        let _ = texts.len();
        if edge.is_end() {
            self.end_row(at, &edge.cells, texts, 1)?;
            return Ok(());
        }
        self.start_row(at, &edge.cells, texts, 1)?;
        Ok(())
    }

    // Adds the lines of the instant at which these edges stand: all single edges of it, in any order. The list comes back,
    // for its room. Out of memory, neither the lines nor the open starts are to be used any more.
    pub(crate) fn show_edges(
        &mut self,
        at: Time,
        mut edges: Vec<Edge>,
        texts: &TextTable,
    ) -> Result<Vec<Edge>, Memory>
        requires { EdgesArePlaced texts.now edges.items }
        ensures instant { OnOk result (ShowsInstant texts.now edges.items at self.old self.new) }
        ensures kinds { self.new.kinds ≡ self.old.kinds }
    {
        let count = edges.len();
        if count == 1 {
            let edge = &edges[0];
            self.show_edge(at, edge, texts)?;
            return Ok(edges);
        }
        // Its call tells the proof that the texts are distinct.
        let _ = texts.len();
        sort_by_row(&mut edges, texts);
        let sorted = edges.as_slice();
        if are_single(sorted) {
            self.show_singles(at, sorted, texts)?;
            return Ok(edges);
        }
        let touched = gather(self.alloc, sorted)?;
        self.show_instant(at, &touched, texts)?;
        Ok(edges)
    }
}
