// The laws of the edges of a Where and of a Select, which take the edges that came in one by one.
ghost use Rattle.std.specs.Prelude.{◌≡◌, ℕ, List, [], ◌++◌};
ghost use Rattle.tw_rows.specs.Event.{Event};
ghost use Rattle.tw_rows.specs.Rows.{Row};
ghost use Rattle.tw_rows.specs.Texts.{BeginsWith};
ghost use Rattle.tw_rows.specs.declared.edge.Edge.{Edge};
ghost use Rattle.edge_history.specs.Order.{is_from, failing};
ghost use Rattle.plan_model.specs.declared.expr.ExprNode.{ExprNode};
ghost use Rattle.plan_model.specs.declared.node.Node.{Node};
ghost use Rattle.plan_model.specs.Meaning.{node_events};
ghost use Rattle.plan_laws.specs.Places.{AreDistinct, EdgesArePlaced};
ghost use Rattle.plan_laws.specs.Standing.{StandsRead};
ghost use Rattle.plan_laws.specs.Selected.{tested_edges, AreSelected};

/// The edges whose rows pass a test stand for the events of a Where, and step by step they are those of all that came
/// in. A table that grows leaves them, and none comes before those that came in.
pub fn tested_edges_stand_read()
    ensures stands { (texts : List (List ℕ)) (child c : ℕ) (test : List ExprNode) (h : List Edge)
        (rows : List (Event Row)) → StandsRead texts c h rows →
        StandsRead texts c (tested_edges texts test h)
        (node_events (Node.Where child test) rows []) }
    ensures more { (texts : List (List ℕ)) (test : List ExprNode) (h l : List Edge) →
        tested_edges texts test (h ++ l) ≡ tested_edges texts test h ++ tested_edges texts test l }
    ensures longer { (new old : List (List ℕ)) → BeginsWith new old →
        (test : List ExprNode) (h : List Edge) → EdgesArePlaced old h →
        tested_edges new test h ≡ tested_edges old test h }
    ensures later { (texts : List (List ℕ)) (test : List ExprNode) (x : ℕ) (l : List Edge) →
        failing (is_from x) l ≡ 0 → failing (is_from x) (tested_edges texts test l) ≡ 0 }
{}

/// Edges that are, one by one, those that came in with the values of the items for their rows, by whatever places of a
/// table of distinct texts, stand for the events of a Select; and step by step they are so of all that came in. A table
/// that grows leaves that, and they come when those came.
pub fn selected_edges_stand_read()
    ensures stands { (texts : List (List ℕ)) → AreDistinct texts →
        (items : List (List ExprNode)) (child c : ℕ) (h out : List Edge) (rows : List (Event Row)) →
        EdgesArePlaced texts out → AreSelected texts items h out → StandsRead texts c h rows →
        StandsRead texts c out (node_events (Node.Select child items) rows []) }
    ensures more { (texts : List (List ℕ)) (items : List (List ExprNode))
        (h out l more : List Edge) → AreSelected texts items h out →
        AreSelected texts items l more → AreSelected texts items (h ++ l) (out ++ more) }
    ensures longer { (new old : List (List ℕ)) → BeginsWith new old →
        (items : List (List ExprNode)) (h out : List Edge) → EdgesArePlaced old h →
        EdgesArePlaced old out → AreSelected old items h out → AreSelected new items h out }
    ensures later { (texts : List (List ℕ)) (items : List (List ExprNode)) (x : ℕ)
        (l more : List Edge) → AreSelected texts items l more →
        failing (is_from x) more ≡ failing (is_from x) l }
{}
