// What filters and projections do to the edges of batches. Each law is a function that does nothing; its clauses
// are the law.
ghost use Rattle.std.specs.Prelude.{◌≡◌, ℕ, Bool, List, map, filter};
ghost use Rattle.tw_rows.specs.Cells.{read_cells};
ghost use Rattle.tw_rows.specs.declared.edge.Edge.{Edge};
ghost use Rattle.edge_history.specs.Order.{KeepsOrder};
ghost use Rattle.plan_model.specs.declared.expr.ExprNode.{ExprNode};
ghost use Rattle.plan_model.specs.Expr.{holds};
ghost use Rattle.batch.specs.Rows.{Row, edges_of};
ghost use Rattle.where_select.specs.Filters.{filtered};
ghost use Rattle.where_select.specs.Projects.{AreProjected, read_edge, projected_edge};

/// The edges of a filtered batch are those of its edges at whose cells the test is true.
pub fn filtered_edges_are()
    ensures { (texts : List (List ℕ)) (test : List ExprNode) (rows : List Row) →
        edges_of (filtered texts test rows)
        ≡ filter (λ e. holds test (read_cells texts e.cells)) (edges_of rows) }
{}

/// The edges of a projected batch are its edges with the values of the expressions for their cells.
pub fn projected_edges_are()
    ensures { (texts : List (List ℕ)) (exprs : List (List ExprNode)) (old new : List Row) →
        AreProjected texts exprs old new →
        map (read_edge texts) (edges_of new) ≡ map (projected_edge texts exprs) (edges_of old) }
{}

/// The edges that pass a test keep the order of the list.
pub fn filtered_edges_keep_order()
    ensures { (passes : Edge → Bool) (edges : List Edge) → KeepsOrder edges →
        KeepsOrder (filter passes edges) }
{}

/// Edges that are projected from others, one for each, keep their order.
pub fn projected_edges_keep_order()
    ensures { (texts : List (List ℕ)) (exprs : List (List ExprNode)) (old new : List Edge) →
        map (read_edge texts) new ≡ map (projected_edge texts exprs) old → KeepsOrder old →
        KeepsOrder new }
{}
