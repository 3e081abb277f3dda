// The laws of edges that stand, read through a table of texts, for events of rows.
ghost use Rattle.std.specs.Prelude.{◌≡◌, ℕ, ◌<◌, ◌≤◌, Bool, false, List, [], map};
ghost use Rattle.tw_rows.specs.Instant.{inf};
ghost use Rattle.tw_rows.specs.Event.{Event, alive, AreEvents};
ghost use Rattle.tw_rows.specs.Bag.{SameBag};
ghost use Rattle.tw_rows.specs.Rows.{Row};
ghost use Rattle.tw_rows.specs.Texts.{BeginsWith};
ghost use Rattle.tw_rows.specs.Cells.{ArePlaced, read_cells};
ghost use Rattle.tw_rows.specs.declared.cells.Datum.{Datum};
ghost use Rattle.tw_rows.specs.declared.edge.Edge.{Edge};
ghost use Rattle.edge_history.specs.Order.{IsHistory};
ghost use Rattle.edge_history.specs.History.{CellEvent, of, StandsBelow};
ghost use Rattle.edge_history.specs.Made.{events_where, events_with};
ghost use Rattle.plan_model.specs.declared.agg.Agg.{Agg};
ghost use Rattle.plan_model.specs.Groups.{is_undefined};
ghost use Rattle.plan_model.specs.RowOps.{is_undefined_in};
ghost use Rattle.plan_model.specs.declared.expr.ExprNode.{ExprNode};
ghost use Rattle.plan_model.specs.declared.node.Node.{Node};
ghost use Rattle.plan_model.specs.Expr.{holds, selected_row};
ghost use Rattle.plan_model.specs.Meaning.{node_events, node_closes};
ghost use Rattle.plan_model.specs.Nodes.{node_in};
ghost use Rattle.plan_model.specs.CellOps.{cell_ops};
ghost use Rattle.plan_laws.specs.CellTests.{CellTest, CellSelect};
ghost use Rattle.plan_laws.specs.Readings.{has_expressions};
ghost use Rattle.plan_laws.specs.Places.{AreDistinct, read_events, read_of, EventsArePlaced, EdgesArePlaced};
ghost use Rattle.plan_laws.specs.Standing.{StandsRead};

/// The events of edges whose places are in the table have places in the table. Edges that stand for events with places
/// in the table have no other places.
pub fn places_stay_in_the_table()
    ensures events { (texts : List (List ℕ)) (h : List Edge) → EdgesArePlaced texts h →
        EventsArePlaced texts (of h) }
    ensures answer { (texts : List (List ℕ)) (c : ℕ) (out : List Edge) (events : List CellEvent) →
        StandsBelow c out events → EventsArePlaced texts events → EdgesArePlaced texts out }
{}

/// Edges that stand for events of cells stand, read, for the events that are read of these.
pub fn standing_edges_stand_read()
    ensures { (texts : List (List ℕ)) (c : ℕ) (out : List Edge) (events : List CellEvent)
        (rows : List (Event Row)) → c ≤ inf → rows ≡ read_events texts events →
        EventsArePlaced texts events → AreEvents rows → StandsBelow c out events →
        StandsRead texts c out rows }
{}

/// What stands for the events of a node over cells stands, read, for those of the node over what is read; of a Where
/// and of a Select, for a test and a function of cells that agree with those of the rows.
pub fn answers_stand_read()
    ensures node { (test : CellTest) (select : CellSelect) (texts : List (List ℕ)) →
        AreDistinct texts → (n : Node) → has_expressions n ≡ false →
        (c : ℕ) (left right out : List Edge) → c ≤ inf → IsHistory left → IsHistory right →
        EdgesArePlaced texts left → EdgesArePlaced texts right →
        StandsBelow c out (node_in (cell_ops test select) n (of left) (of right)) →
        StandsRead texts c out (node_events n (read_of texts left) (read_of texts right)) }
    ensures tested { (texts : List (List ℕ)) (child : ℕ) (test : List ExprNode)
        (passes : List Datum → Bool) → ((ds : List Datum) → ArePlaced texts ds →
        passes ds ≡ holds test (read_cells texts ds)) → (c : ℕ) (h out : List Edge) → c ≤ inf →
        IsHistory h → EdgesArePlaced texts h → StandsBelow c out (events_where passes (of h)) →
        StandsRead texts c out (node_events (Node.Where child test) (read_of texts h) []) }
    ensures selected { (texts : List (List ℕ)) (child : ℕ) (items : List (List ExprNode))
        (made : List Datum → List Datum) → ((ds : List Datum) → ArePlaced texts ds →
        read_cells texts (made ds) ≡ selected_row items (read_cells texts ds)) →
        ((ds : List Datum) → ArePlaced texts ds → ArePlaced texts (made ds)) →
        (c : ℕ) (h out : List Edge) → c ≤ inf → IsHistory h → EdgesArePlaced texts h →
        StandsBelow c out (events_with made (of h)) →
        StandsRead texts c out (node_events (Node.Select child items) (read_of texts h) []) }
{}

/// A table that grows changes nothing of what has its places in it.
pub fn longer_tables_read_the_same()
    ensures events { (new old : List (List ℕ)) → BeginsWith new old → (events : List CellEvent) →
        EventsArePlaced old events → read_events new events ≡ read_events old events }
    ensures placed { (new old : List (List ℕ)) → BeginsWith new old → (h : List Edge) →
        EdgesArePlaced old h → EdgesArePlaced new h }
    ensures stands { (new old : List (List ℕ)) → BeginsWith new old →
        (c : ℕ) (h : List Edge) (events : List (Event Row)) →
        StandsRead old c h events → StandsRead new c h events }
{}

/// What stands, read, for a node over what is read on its two sides stands for the node over the events for which the
/// two sides stand.
pub fn sides_may_be_what_they_stand_for()
    ensures { (texts : List (List ℕ)) (n : Node) (x y : ℕ) (left right out : List Edge)
        (a b : List (Event Row)) → StandsRead texts x left a → StandsRead texts y right b →
        StandsRead texts (node_closes n x y) out
        (node_events n (read_of texts left) (read_of texts right)) →
        StandsRead texts (node_closes n x y) out (node_events n a b) }
{}

/// Where edges stand, read, for events below a time, at each instant below it the same rows are alive, read; and a
/// group of the rows is undefined exactly where one of the cells is.
pub fn standing_edges_show_the_rows()
    ensures rows { (texts : List (List ℕ)) (c t : ℕ) (h : List Edge) (events : List (Event Row)) →
        t < c → StandsRead texts c h events → SameBag (alive (read_of texts h) t) (alive events t) }
    ensures cells { (texts : List (List ℕ)) (c t : ℕ) (h : List Edge) (events : List (Event Row)) →
        t < c → StandsRead texts c h events → SameBag (map (read_cells texts) (alive (of h) t))
        (alive events t) }
    ensures undefined { (test : CellTest) (select : CellSelect) (texts : List (List ℕ)) →
        AreDistinct texts → (key : List ℕ) (aggs : List Agg) (c t : ℕ) (h : List Edge)
        (events : List (Event Row)) → t < c → StandsRead texts c h events →
        is_undefined key aggs (alive events t) ≡ is_undefined_in (cell_ops test select) key aggs
        (alive (of h) t) }
{}
