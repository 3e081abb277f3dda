// The laws of readings: a node of rows that are read has the rows that are read of the node's.
ghost use Rattle.std.specs.Prelude.{◌≡◌, ℕ, false, List, map};
ghost use Rattle.tw_rows.specs.Event.{Event, alive};
ghost use Rattle.tw_rows.specs.declared.cells.Datum.{Datum};
ghost use Rattle.tw_rows.specs.declared.edge.Edge.{Edge};
ghost use Rattle.edge_history.specs.History.{CellEvent, of};
ghost use Rattle.plan_model.specs.declared.agg.Agg.{Agg};
ghost use Rattle.plan_model.specs.declared.node.Node.{Node};
ghost use Rattle.plan_model.specs.Groups.{is_undefined};
ghost use Rattle.plan_model.specs.Meaning.{node_events};
ghost use Rattle.plan_model.specs.RowOps.{RowOps, is_undefined_in};
ghost use Rattle.plan_model.specs.Nodes.{events_to, node_in};
ghost use Rattle.plan_model.specs.CellOps.{cell_ops};
ghost use Rattle.plan_laws.specs.CellTests.{CellTest, CellSelect};
ghost use Rattle.plan_laws.specs.Readings.{has_expressions, IsReading, AreApart, value_by};
ghost use Rattle.plan_laws.specs.Places.{AreDistinct, read_events, read_of, EventsArePlaced, EdgesArePlaced};

/// Rows of any kind: the events of a node over rows that are read, but for a Where and a Select, are those over the
/// rows as they were, read; and just the same groups are undefined.
pub fn nodes_commute_with_readings<X, Y>()
    ensures events { (f : X → Y) (before : RowOps X) (after : RowOps Y) → IsReading f before after →
        (n : Node) (a b : List (Event (List X))) → has_expressions n ≡ false →
        node_in after n (events_to (map f) a) (events_to (map f) b)
        ≡ events_to (map f) (node_in before n a b) }
    ensures undefined { (f : X → Y) (before : RowOps X) (after : RowOps Y) →
        IsReading f before after → (key : List ℕ) (aggs : List Agg) (rows : List (List X)) →
        is_undefined_in after key aggs (map (map f) rows) ≡ is_undefined_in before key aggs rows }
{}

/// Cells, of which different places are different texts: the events of a node over rows of values are those over the
/// rows of cells, read; and just the same groups are undefined.
pub fn nodes_commute_with_texts_of_places()
    ensures events { (test : CellTest) (select : CellSelect) (text : ℕ → List ℕ) → AreApart text →
        (n : Node) (a b : List CellEvent) → has_expressions n ≡ false →
        node_events n (events_to (map (value_by text)) a) (events_to (map (value_by text)) b)
        ≡ events_to (map (value_by text)) (node_in (cell_ops test select) n a b) }
    ensures undefined { (test : CellTest) (select : CellSelect) (text : ℕ → List ℕ) →
        AreApart text → (key : List ℕ) (aggs : List Agg) (rows : List (List Datum)) →
        is_undefined key aggs (map (map (value_by text)) rows)
        ≡ is_undefined_in (cell_ops test select) key aggs rows }
    ensures instants { (test : CellTest) (select : CellSelect) (text : ℕ → List ℕ) → AreApart text →
        (key : List ℕ) (aggs : List Agg) (a : List CellEvent) (t : ℕ) →
        is_undefined key aggs (alive (events_to (map (value_by text)) a) t)
        ≡ is_undefined_in (cell_ops test select) key aggs (alive a t) }
{}

/// Cells that are read through a table of distinct texts, which has the text of each of their places: the same, and the
/// places in the events of the node are places of the table too, whatever texts it has.
pub fn nodes_commute_with_tables()
    ensures events { (test : CellTest) (select : CellSelect) (texts : List (List ℕ)) →
        AreDistinct texts → (n : Node) (a b : List CellEvent) → has_expressions n ≡ false →
        EventsArePlaced texts a → EventsArePlaced texts b →
        node_events n (read_events texts a) (read_events texts b)
        ≡ read_events texts (node_in (cell_ops test select) n a b) }
    ensures placed { (test : CellTest) (select : CellSelect) (texts : List (List ℕ))
        (n : Node) (a b : List CellEvent) → has_expressions n ≡ false →
        EventsArePlaced texts a → EventsArePlaced texts b →
        EventsArePlaced texts (node_in (cell_ops test select) n a b) }
    ensures undefined { (test : CellTest) (select : CellSelect) (texts : List (List ℕ)) →
        AreDistinct texts → (key : List ℕ) (aggs : List Agg) (a : List CellEvent) (t : ℕ) →
        EventsArePlaced texts a → is_undefined key aggs (alive (read_events texts a) t)
        ≡ is_undefined_in (cell_ops test select) key aggs (alive a t) }
    ensures undefined_edges { (test : CellTest) (select : CellSelect) (texts : List (List ℕ)) →
        AreDistinct texts → (key : List ℕ) (aggs : List Agg) (h : List Edge) (t : ℕ) →
        EdgesArePlaced texts h → is_undefined key aggs (alive (read_of texts h) t)
        ≡ is_undefined_in (cell_ops test select) key aggs (alive (of h) t) }
{}
