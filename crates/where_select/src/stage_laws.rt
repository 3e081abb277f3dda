// The laws of stages. Each is a function that does nothing; its clauses are the law.
ghost use Rattle.std.specs.Prelude.{◌≡◌, ℕ, List, [], ◌++◌};
ghost use Rattle.tw_rows.specs.Event.{Event};
ghost use Rattle.tw_rows.specs.Rows.{Row};
ghost use Rattle.tw_rows.specs.Texts.{BeginsWith};
ghost use Rattle.tw_rows.specs.declared.edge.Edge.{Edge};
ghost use Rattle.tw_rows.specs.declared.kind.CellKind.{CellKind};
ghost use Rattle.plan_model.specs.declared.node.Node.{Node};
ghost use Rattle.plan_model.specs.Meaning.{node_events, node_closes};
ghost use Rattle.plan_laws.specs.Places.{AreDistinct, EdgesArePlaced};
ghost use Rattle.plan_laws.specs.Standing.{StandsRead};
ghost use Rattle.where_select.specs.declared.row_stage.RowStage.{RowStage};
ghost use Rattle.where_select.specs.Made.{IsMade};
ghost use Rattle.where_select.specs.Stages.{IsStageOf};

/// A stage computes its node with every table of texts that begins with one with which it does.
pub fn stages_keep_their_node()
    ensures { (texts more : List (List ℕ)) (capacity : ℕ) (kinds : List CellKind) (n : Node)
        (s : RowStage) → BeginsWith more texts → IsStageOf texts capacity kinds n s →
        IsStageOf more capacity kinds n s }
{}

/// The edges that the node of a stage made of all that came in, step by step. At first there are none; those of a step
/// more are put last; a table that grows leaves them. Where what came in stands, read, for events, they stand for the
/// node's events below its closing.
pub fn made_edges_stand_read()
    ensures first { (texts : List (List ℕ)) (capacity : ℕ) (kinds : List CellKind) (n : Node)
        (s : RowStage) → IsStageOf texts capacity kinds n s → IsMade texts n [] [] }
    ensures more { (texts : List (List ℕ)) (capacity : ℕ) (kinds : List CellKind) (n : Node)
        (s : RowStage) → IsStageOf texts capacity kinds n s → (left out new more : List Edge) →
        IsMade texts n left out → IsMade texts n new more →
        IsMade texts n (left ++ new) (out ++ more) }
    ensures longer { (texts : List (List ℕ)) (capacity : ℕ) (kinds : List CellKind) (n : Node)
        (s : RowStage) → IsStageOf texts capacity kinds n s → (longer : List (List ℕ)) →
        BeginsWith longer texts → (left out : List Edge) → EdgesArePlaced texts left →
        IsMade texts n left out → IsMade longer n left out }
    ensures stands { (texts : List (List ℕ)) (capacity : ℕ) (kinds : List CellKind) (n : Node)
        (s : RowStage) → IsStageOf texts capacity kinds n s → AreDistinct texts →
        (x y : ℕ) (left out : List Edge) (rows right : List (Event Row)) → IsMade texts n left out →
        StandsRead texts x left rows → StandsRead texts (node_closes n x y) out
        (node_events n rows right) }
{}
