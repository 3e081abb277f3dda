// Laws of lists of edges.
ghost use Rattle.std.specs.Prelude.{◌≡◌, ℕ, true, List, ◌++◌, All};
ghost use Rattle.tw_rows.specs.Cells.{ArePlaced};
ghost use Rattle.tw_rows.specs.declared.edge.Edge.{Edge};
ghost use Rattle.batch.specs.Rows.{Row, edges_of};

/// Where the cells of a list's edges are in a table of texts, so are those of each batch that is
/// taken out of it, at every row that holds an edge, and those of the edges that are left.
pub fn batches_hold_the_places_of_their_list()
    ensures batch { (texts : List (List ℕ)) (edges rest : List Edge) (rows : List Row) →
        edges ≡ edges_of rows ++ rest → All (λ e. ArePlaced texts e.cells) edges →
        All (λ r. r.occupied ≡ true → ArePlaced texts r.cells) rows }
    ensures rest { (texts : List (List ℕ)) (edges rest : List Edge) (rows : List Row) →
        edges ≡ edges_of rows ++ rest → All (λ e. ArePlaced texts e.cells) edges →
        All (λ e. ArePlaced texts e.cells) rest }
    ensures back { (texts : List (List ℕ)) (rows : List Row) →
        All (λ r. r.occupied ≡ true → ArePlaced texts r.cells) rows →
        All (λ e. ArePlaced texts e.cells) (edges_of rows) }
{}
