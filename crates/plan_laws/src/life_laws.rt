// The laws of what operators of such nodes keep.
ghost use Rattle.std.specs.Prelude.{◌≡◌, ℕ, ◌*◌, ◌≤◌, true, List, [], ◌++◌, length};
ghost use Rattle.tw_rows.specs.Instant.{inf};
ghost use Rattle.tw_rows.specs.Bag.{SameBag};
ghost use Rattle.tw_rows.specs.Texts.{BeginsWith};
ghost use Rattle.tw_rows.specs.declared.edge.Edge.{Edge};
ghost use Rattle.edge_history.specs.Order.{Rises, failing, is_real, is_below, is_from, KeepsOrder, IsHistory};
ghost use Rattle.edge_history.specs.History.{of};
ghost use Rattle.plan_model.specs.declared.node.Node.{Node};
ghost use Rattle.plan_model.specs.Meaning.{node_closes, node_events};
ghost use Rattle.plan_laws.specs.Held.{reaching};
ghost use Rattle.plan_laws.specs.Keeping.{KeepsAhead, plain_cells};
ghost use Rattle.plan_laws.specs.Places.{AreDistinct, EdgesArePlaced, read_of};
ghost use Rattle.plan_laws.specs.Standing.{StandsRead};
ghost use Rattle.plan_laws.specs.Answers.{has_known_lives, answered, answered_below, answered_at, carried_at};
ghost use Rattle.plan_laws.specs.LifeKeeping.{KeepsLives};

/// What is kept so tells of the node's events, with the ends that are known ahead. So what was answered stands, read, for
/// the events of rows that are read of what came in. Where nothing came in, nothing is carried, and a table that grows
/// changes nothing. Of each event that does not end before the time below which edges are answered, at most two edges are
/// carried.
pub fn lives_are_told_at_their_starts()
    ensures first { (n : Node) (texts : List (List ℕ)) → KeepsLives n texts 0 0 [] [] [] [] }
    ensures longer { (n : Node) (new old : List (List ℕ)) (x y : ℕ)
        (carried left right out : List Edge) → BeginsWith new old →
        KeepsLives n old x y carried left right out → KeepsLives n new x y carried left right out }
    ensures ahead { (n : Node) (texts : List (List ℕ)) (x y : ℕ)
        (carried left right out : List Edge) → has_known_lives n ≡ true →
        KeepsLives n texts x y carried left right out →
        KeepsAhead plain_cells n texts x y left right out }
    ensures rows { (n : Node) (texts : List (List ℕ)) (x y : ℕ)
        (carried left right out : List Edge) → has_known_lives n ≡ true → AreDistinct texts →
        KeepsLives n texts x y carried left right out →
        StandsRead texts (node_closes n x y) out
        (node_events n (read_of texts left) (read_of texts right)) }
    ensures held { (n : Node) (texts : List (List ℕ)) (x y : ℕ)
        (carried left right out : List Edge) → KeepsLives n texts x y carried left right out →
        length carried ≤ 2 * reaching (answered_below n x) (of left) }
{}

/// A step: new edges come at the time up to which their side was closed or later, and with those that were carried, in
/// order, they are parted at the time below which edges are answered. The answer keeps the order. It comes at the old
/// closing or later, and below the new one, whatever came before.
pub fn early_edges_are_answered_and_later_ones_carried()
    ensures kept { (n : Node) (texts : List (List ℕ)) (x y u v : ℕ)
        (carried left right out l r all : List Edge) → has_known_lives n ≡ true → x ≤ u → u ≤ inf →
        y ≤ v → v ≤ inf → KeepsLives n texts x y carried left right out → IsHistory (left ++ l) →
        IsHistory (right ++ r) → EdgesArePlaced texts (left ++ l) →
        EdgesArePlaced texts (right ++ r) → failing (is_from x) l ≡ 0 → Rises 0 all →
        SameBag all (carried ++ l) → KeepsLives n texts u v (carried_at n u all) (left ++ l)
        (right ++ r) (out ++ answered_at n u all) }
    ensures from { (n : Node) (x y u : ℕ) (carried l all : List Edge) → has_known_lives n ≡ true →
        x ≤ u → u ≤ inf → SameBag all (carried ++ l) →
        failing (is_from (answered_below n x)) carried ≡ 0 → failing (is_from x) l ≡ 0 →
        failing (is_from (node_closes n x y)) (answered_at n u all) ≡ 0 }
    ensures below { (n : Node) (u v : ℕ) (all : List Edge) → has_known_lives n ≡ true → u ≤ inf →
        failing (is_below (node_closes n u v)) (answered_at n u all) ≡ 0 }
    ensures order { (n : Node) (h : List Edge) → has_known_lives n ≡ true → KeepsOrder h →
        KeepsOrder (answered n h) }
{}
