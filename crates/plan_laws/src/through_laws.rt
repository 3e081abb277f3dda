// The laws of the lists of a plan's nodes.
ghost use Rattle.std.specs.Prelude.{◌≡◌, ℕ, suc, Some, List, [], slice_get};
ghost use Rattle.tw_rows.specs.Instant.{inf};
ghost use Rattle.tw_rows.specs.declared.edge.Edge.{Edge};
ghost use Rattle.plan_model.specs.declared.node.Node.{Node};
ghost use Rattle.plan_model.specs.Shape.{left_of, right_of, IsOrdered};
ghost use Rattle.plan_model.specs.Meaning.{Sources, node_events, node_closes, closes, events};
ghost use Rattle.plan_laws.specs.Places.{read_of};
ghost use Rattle.plan_laws.specs.Standing.{StandsRead, SourcesStandRead, AllStandRead};

/// Where the lists of the streams and of the nodes before a node stand, read, for their events, so do the two lists
/// that the node reads; and so does its own list, if it stands for the node over what is read of these two. Node by
/// node all lists stand for the events of their nodes below their closings.
pub fn nodes_stand_read_after_their_children()
    ensures left { (texts : List (List ℕ)) (nodes : List Node) → IsOrdered nodes →
        (p : ℕ) (source : Sources) (given lists : ℕ → List Edge) →
        SourcesStandRead texts p source given → (i : ℕ) (n : Node) → slice_get nodes i ≡ Some n →
        AllStandRead texts nodes p source lists i →
        StandsRead texts (left_of inf (λ k. p) (λ k. closes nodes k p) n) (left_of [] given lists n)
        (left_of [] source (events source nodes) n) }
    ensures right { (texts : List (List ℕ)) (nodes : List Node) → IsOrdered nodes →
        (p : ℕ) (source : Sources) (given lists : ℕ → List Edge) →
        SourcesStandRead texts p source given → (i : ℕ) (n : Node) → slice_get nodes i ≡ Some n →
        AllStandRead texts nodes p source lists i →
        StandsRead texts (right_of inf (λ k. closes nodes k p) n) (right_of [] lists n)
        (right_of [] (events source nodes) n) }
    ensures node { (texts : List (List ℕ)) (nodes : List Node) → IsOrdered nodes →
        (p : ℕ) (source : Sources) (given lists : ℕ → List Edge) →
        SourcesStandRead texts p source given → (i : ℕ) (n : Node) → slice_get nodes i ≡ Some n →
        AllStandRead texts nodes p source lists i →
        StandsRead texts (node_closes n (left_of inf (λ k. p) (λ k. closes nodes k p) n)
        (right_of inf (λ k. closes nodes k p) n)) (lists i)
        (node_events n (read_of texts (left_of [] given lists n))
        (read_of texts (right_of [] lists n))) →
        StandsRead texts (closes nodes i p) (lists i) (events source nodes i) }
    ensures next { (texts : List (List ℕ)) (nodes : List Node) (p : ℕ) (source : Sources)
        (lists : ℕ → List Edge) (i : ℕ) →
        AllStandRead texts nodes p source lists i →
        StandsRead texts (closes nodes i p) (lists i) (events source nodes i) →
        AllStandRead texts nodes p source lists (suc i) }
{}
