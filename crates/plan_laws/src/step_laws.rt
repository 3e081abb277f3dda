// The laws of what operators keep of their nodes, step by step.
ghost use Rattle.std.specs.Prelude.{◌≡◌, ℕ, ◌+◌, ◌≤◌, false, List, [], ◌++◌, filter};
ghost use Rattle.tw_rows.specs.Instant.{inf};
ghost use Rattle.tw_rows.specs.Bag.{SameBag, total};
ghost use Rattle.tw_rows.specs.Texts.{BeginsWith};
ghost use Rattle.tw_rows.specs.declared.cells.Datum.{Datum};
ghost use Rattle.tw_rows.specs.declared.edge.Edge.{Edge};
ghost use Rattle.edge_history.specs.Order.{is_from, is_below, is_real, failing, Rises, IsHistory};
ghost use Rattle.edge_history.specs.History.{of, StandsBelow};
ghost use Rattle.edge_history.specs.Balance.{news};
ghost use Rattle.edge_history.specs.Opens.{singles};
ghost use Rattle.plan_model.specs.declared.node.Node.{Node};
ghost use Rattle.plan_model.specs.Meaning.{node_events, node_closes};
ghost use Rattle.plan_model.specs.RowOps.{RowOps};
ghost use Rattle.plan_model.specs.Nodes.{node_in};
ghost use Rattle.plan_model.specs.CellOps.{cell_ops};
ghost use Rattle.plan_laws.specs.CellTests.{CellTest, CellSelect};
ghost use Rattle.plan_laws.specs.Readings.{has_expressions};
ghost use Rattle.plan_laws.specs.Places.{AreDistinct, read_of, EdgesArePlaced};
ghost use Rattle.plan_laws.specs.Standing.{StandsRead};
ghost use Rattle.plan_laws.specs.Keeping.{Keeps, KeepsAhead};

/// Where nothing came in, nothing is told, whatever the times up to which the sides are closed.
pub fn nothing_is_kept_at_first()
    ensures { (ops : RowOps Datum) (n : Node) (texts : List (List ℕ)) (x y : ℕ) →
        Keeps ops n texts x y [] [] [] }
{}

/// A table that grows changes nothing of what is kept.
pub fn what_is_kept_stays_in_longer_tables()
    ensures { (ops : RowOps Datum) (n : Node) (new old : List (List ℕ)) (x y : ℕ)
        (left right out : List Edge) → BeginsWith new old → Keeps ops n old x y left right out →
        Keeps ops n new x y left right out }
{}

/// A step: new edges come at the time up to which their side was closed or later, each side is closed up to a later
/// time, and the answer, in order, is the news of the node's events between its closings. It is left to an operator to
/// show of its code that the answer is this news, in order. The answer comes at the node's last closing or later, and
/// below the new one; closings do not fall while those of the sides rise.
pub fn steps_keep_what_they_tell()
    ensures kept { (test : CellTest) (select : CellSelect) (n : Node) (texts : List (List ℕ))
        (x y u v : ℕ) (left right out l r more : List Edge) → x ≤ u → u ≤ inf → y ≤ v → v ≤ inf →
        Keeps (cell_ops test select) n texts x y left right out →
        IsHistory (left ++ l) → IsHistory (right ++ r) →
        EdgesArePlaced texts (left ++ l) → EdgesArePlaced texts (right ++ r) →
        failing (is_from x) l ≡ 0 → failing (is_from y) r ≡ 0 → Rises 0 more →
        SameBag more (news (node_closes n x y) (node_closes n u v)
        (node_in (cell_ops test select) n (of (left ++ l)) (of (right ++ r)))) →
        Keeps (cell_ops test select) n texts u v (left ++ l) (right ++ r) (out ++ more) }
    ensures later { (ops : RowOps Datum) (n : Node) (x y u v : ℕ) (left right more : List Edge) →
        SameBag more (news (node_closes n x y) (node_closes n u v)
        (node_in ops n (of left) (of right))) → failing (is_from (node_closes n x y)) more ≡ 0 }
    ensures below { (ops : RowOps Datum) (n : Node) (x y u v : ℕ) (left right more : List Edge) →
        SameBag more (news (node_closes n x y) (node_closes n u v)
        (node_in ops n (of left) (of right))) → failing (is_below (node_closes n u v)) more ≡ 0 }
    ensures closings { (n : Node) (x y u v : ℕ) → x ≤ u → y ≤ v → u ≤ inf →
        node_closes n x y ≤ node_closes n u v }
{}

/// What is told is a history below the closing, with its places in the table, and stands for the node's events: of
/// cells, and of the rows that are read of what came in.
pub fn what_is_told_stands_for_the_node()
    ensures cells { (test : CellTest) (select : CellSelect) (n : Node) (texts : List (List ℕ))
        (x y : ℕ) (left right out : List Edge) → x ≤ inf → y ≤ inf →
        Keeps (cell_ops test select) n texts x y left right out →
        StandsBelow (node_closes n x y) out (node_in (cell_ops test select) n (of left)
        (of right)) }
    ensures placed { (test : CellTest) (select : CellSelect) (n : Node) (texts : List (List ℕ))
        (x y : ℕ) (left right out : List Edge) → has_expressions n ≡ false → x ≤ inf → y ≤ inf →
        Keeps (cell_ops test select) n texts x y left right out → EdgesArePlaced texts out }
    ensures rows { (test : CellTest) (select : CellSelect) (n : Node) (texts : List (List ℕ))
        (x y : ℕ) (left right out : List Edge) → has_expressions n ≡ false → AreDistinct texts →
        x ≤ inf → y ≤ inf → Keeps (cell_ops test select) n texts x y left right out →
        StandsRead texts (node_closes n x y) out
        (node_events n (read_of texts left) (read_of texts right)) }
{}

/// An operator may tell ends ahead, by interval edges with the ends that it knows. Its step then shows that the single
/// edges of its answer below the new closing, with the ends told ahead that come due by then, are the news of the
/// node's events, and that what is told ahead are ends of these. What is told stands for the node's events as well.
pub fn steps_may_tell_ends_ahead()
    ensures first { (ops : RowOps Datum) (n : Node) (texts : List (List ℕ)) (x y : ℕ) →
        KeepsAhead ops n texts x y [] [] [] }
    ensures longer { (ops : RowOps Datum) (n : Node) (new old : List (List ℕ)) (x y : ℕ)
        (left right out : List Edge) → BeginsWith new old →
        KeepsAhead ops n old x y left right out → KeepsAhead ops n new x y left right out }
    ensures kept { (test : CellTest) (select : CellSelect) (n : Node) (texts : List (List ℕ))
        (x y u v : ℕ) (left right out l r more : List Edge) → x ≤ u → u ≤ inf → y ≤ v → v ≤ inf →
        KeepsAhead (cell_ops test select) n texts x y left right out → IsHistory (left ++ l) →
        IsHistory (right ++ r) → EdgesArePlaced texts (left ++ l) →
        EdgesArePlaced texts (right ++ r) → failing (is_from x) l ≡ 0 → failing (is_from y) r ≡ 0 →
        Rises 0 more → failing is_real more ≡ 0 → failing (is_from (node_closes n x y)) more ≡ 0 →
        failing (is_below (node_closes n u v)) more ≡ 0 →
        ((w : Edge → ℕ) → total w (filter (is_below (node_closes n u v)) (singles more)) + total w
        (filter (is_below (node_closes n u v)) (filter (is_from (node_closes n x y)) (singles out)))
        ≡ total w (news (node_closes n x y) (node_closes n u v)
        (node_in (cell_ops test select) n (of (left ++ l)) (of (right ++ r))))) →
        ((w : Edge → ℕ) → total w (filter (is_from (node_closes n u v)) (singles more)) + total w
        (filter (is_from (node_closes n u v)) (filter (is_from (node_closes n x y))
        (singles out))) ≤ total w (news (node_closes n u v) inf
        (node_in (cell_ops test select) n (of (left ++ l)) (of (right ++ r))))) →
        KeepsAhead (cell_ops test select) n texts u v (left ++ l) (right ++ r) (out ++ more) }
    ensures cells { (test : CellTest) (select : CellSelect) (n : Node) (texts : List (List ℕ))
        (x y : ℕ) (left right out : List Edge) → x ≤ inf → y ≤ inf →
        KeepsAhead (cell_ops test select) n texts x y left right out →
        StandsBelow (node_closes n x y) out (node_in (cell_ops test select) n (of left)
        (of right)) }
    ensures placed { (test : CellTest) (select : CellSelect) (n : Node) (texts : List (List ℕ))
        (x y : ℕ) (left right out : List Edge) → has_expressions n ≡ false → x ≤ inf → y ≤ inf →
        KeepsAhead (cell_ops test select) n texts x y left right out → EdgesArePlaced texts out }
    ensures rows { (test : CellTest) (select : CellSelect) (n : Node) (texts : List (List ℕ))
        (x y : ℕ) (left right out : List Edge) → has_expressions n ≡ false → AreDistinct texts →
        x ≤ inf → y ≤ inf → KeepsAhead (cell_ops test select) n texts x y left right out →
        StandsRead texts (node_closes n x y) out
        (node_events n (read_of texts left) (read_of texts right)) }
{}
