// What a group keeps, in the words of its node.
ghost use Rattle.std.specs.Prelude.{◌≡◌, ℕ, ◌≤◌, Option, List, []};
ghost use Rattle.tw_rows.specs.Event.{alive};
ghost use Rattle.tw_rows.specs.Instant.{inf};
ghost use Rattle.tw_rows.specs.SameCells.{same_cells};
ghost use Rattle.tw_rows.specs.declared.cells.Datum.{Datum};
ghost use Rattle.tw_rows.specs.declared.edge.Edge.{Edge};
ghost use Rattle.tw_rows.specs.declared.edge.HeldRow.{HeldRow};
ghost use Rattle.edge_history.specs.History.{of};
ghost use Rattle.plan_laws.specs.Keeping.{plain_cells};
ghost use Rattle.plan_laws.specs.Places.{AreDistinct, read_of, EdgesArePlaced};
ghost use Rattle.plan_laws.specs.Standing.{StandsRead};
ghost use Rattle.plan_laws.specs.Undefined.{first_below, undefined_over};
ghost use Rattle.plan_model.specs.Keys.{value_ops};
ghost use Rattle.plan_model.specs.Meaning.{node_events};
ghost use Rattle.plan_model.specs.RowOps.{is_undefined_in};
ghost use Rattle.plan_model.specs.declared.agg.Agg.{Agg};
ghost use Rattle.plan_model.specs.declared.node.Node.{Node};
ghost use Rattle.sweep_laws.specs.Grouping.{GroupKeeps};
ghost use Rattle.sweep_laws.specs.Running.{Run};
ghost use Rattle.snapshot_agg.specs.Words.{key_data, tell, bad};

/// What a Group answered stands, read through a table of texts, for the events of its node, of the rows that are read of
/// what came in. The least instant at which one of its groups is undefined is that of the node.
pub fn groups_stand_for_their_node()
    ensures stands { (child : ℕ) (key : List ℕ) (aggs : List Agg) (texts : List (List ℕ))
        (rows : List HeldRow) (run : List Datum → Option Run) (waiting came out : List Edge)
        (to : ℕ) → to ≤ inf → AreDistinct texts → EdgesArePlaced texts came →
        GroupKeeps (key_data key) same_cells (tell key aggs) (bad key aggs)
        rows run waiting to came out →
        StandsRead texts to out (node_events (Node.Group child key aggs) (read_of texts came) []) }
    ensures undefined { (child : ℕ) (key : List ℕ) (aggs : List Agg) (texts : List (List ℕ))
        (came : List Edge) (to : ℕ) → AreDistinct texts → EdgesArePlaced texts came →
        first_below (λ t. undefined_over value_ops (Node.Group child key aggs)
        (alive (read_of texts came) t)) to
        ≡ first_below (λ t. is_undefined_in plain_cells key aggs (alive (of came) t)) to }
{}
