// How the cells of a list's edges are stored, and whether their texts are in a table.
ghost use Rattle.std.specs.Prelude.{◌≡◌, ◌↔◌, map, All, IsTrue};
ghost use Rattle.tw_rows.specs.Cells.{datum_kind, ArePlaced};
ghost use Rattle.edge_stream.specs.Listing.{cells_of};

use crate::list::EdgeList;
use tw_rows::TextTable;

impl EdgeList {
    /// The cells of each edge are stored as the kinds of their columns tell. A law: the call changes
    /// nothing.
    pub fn cells_are_of_kinds(&self)
        ensures { All (λ e. map datum_kind e.cells ≡ cells_of self.now) self.now.edges }
    {
        for place in 0..self.batches.len() {
            self.batches[place].cells_are_of_kinds();
        }
    }

    /// Whether each text in the edges has its place in the table. It goes through the columns of texts
    /// alone, and takes no memory.
    pub fn are_placed(&self, texts: &TextTable) -> bool
        ensures { IsTrue result ↔ All (λ e. ArePlaced texts.now e.cells) self.now.edges }
    {
        for place in 0..self.batches.len() {
            if !self.batches[place].are_placed(texts) {
                return false;
            }
        }
        true
    }
}
