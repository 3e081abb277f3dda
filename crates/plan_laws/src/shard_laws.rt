// What the shards of a node are together.
ghost use Rattle.std.specs.Prelude.{◌≡◌, ℕ, ◌*◌, ◌<◌, ◌≤◌, ◌++◌, Bool, true, false, Some, None, List};
ghost use Rattle.tw_rows.specs.Bag.{SameBag};
ghost use Rattle.tw_rows.specs.Event.{alive};
ghost use Rattle.tw_rows.specs.Instant.{inf};
ghost use Rattle.tw_rows.specs.declared.cells.Datum.{Datum};
ghost use Rattle.tw_rows.specs.declared.edge.Edge.{Edge};
ghost use Rattle.key_nodes.specs.Shards.{over_shards};
ghost use Rattle.edge_history.specs.Made.{edges_where};
ghost use Rattle.edge_history.specs.Order.{failing, is_below, is_from, Rises, IsHistory};
ghost use Rattle.plan_model.specs.Keys.{value_ops};
ghost use Rattle.plan_model.specs.Meaning.{node_events};
ghost use Rattle.plan_model.specs.declared.node.Node.{Node};
ghost use Rattle.plan_laws.specs.Undefined.{undefined_over, first_below};
ghost use Rattle.plan_laws.specs.Places.{AreDistinct, read_of, EdgesArePlaced};
ghost use Rattle.plan_laws.specs.Shards.{is_keyed, any_shard};
ghost use Rattle.plan_laws.specs.Standing.{StandsRead};
ghost use Rattle.plan_laws.specs.Parts.{left_part, right_part, sum_of_shards, may_keep_of};

/// However keys are given shards: where the answers of each shard stand, read, for the events of the node over the edges of
/// that shard, all answers together, in order, stand for those of the node over all edges.
pub fn shards_stand_together()
    ensures { (n : Node) → is_keyed n ≡ true → (shard : List Datum → ℕ) (count : ℕ) →
        ((key : List Datum) → shard key < count) → (texts : List (List ℕ)) → AreDistinct texts →
        (c : ℕ) (hl hr out : List Edge) (outs : ℕ → List Edge) → c ≤ inf → IsHistory hl →
        IsHistory hr → EdgesArePlaced texts hl → EdgesArePlaced texts hr →
        ((s : ℕ) → s < count → StandsRead texts c (outs s)
        (node_events n (read_of texts (left_part shard n s hl))
        (read_of texts (right_part shard n s hr)))) → Rises 0 out →
        SameBag out (over_shards outs count) → EdgesArePlaced texts out →
        StandsRead texts c out (node_events n (read_of texts hl) (read_of texts hr)) }
{}

/// However keys are given shards: a node is undefined at an instant, over edges that are read, where it is so in one of its
/// shards. So its least undefined instant is the least of its shards'.
pub fn shards_are_undefined_together()
    ensures instants { (n : Node) → is_keyed n ≡ true → (shard : List Datum → ℕ) (count : ℕ) →
        ((key : List Datum) → shard key < count) → (texts : List (List ℕ)) → AreDistinct texts →
        (h : List Edge) → IsHistory h → EdgesArePlaced texts h → (t : ℕ) →
        undefined_over value_ops n (alive (read_of texts h) t) ≡ any_shard
        (λ s. undefined_over value_ops n (alive (read_of texts (left_part shard n s h)) t)) count }
    ensures least { (q : ℕ → ℕ → Bool) (count c s m : ℕ) → s < count →
        first_below (q s) c ≡ Some m → ((k : ℕ) → k < count → (u : ℕ) → u < m → q k u ≡ false) →
        first_below (λ t. any_shard (λ k. q k t) count) c ≡ Some m }
    ensures none { (q : ℕ → ℕ → Bool) (count c : ℕ) →
        ((k : ℕ) → k < count → first_below (q k) c ≡ None) →
        first_below (λ t. any_shard (λ k. q k t) count) c ≡ None }
{}

/// The edges of a shard, in order, are a history where all edges are one; and edges that are those of placed edges in another
/// order are placed.
pub fn shards_have_histories()
    ensures history { (test : List Datum → Bool) (h : List Edge) → IsHistory h →
        IsHistory (edges_where test h) }
    ensures placed { (texts : List (List ℕ)) (a b : List Edge) →
        SameBag a b → EdgesArePlaced texts b → EdgesArePlaced texts a }
{}

/// What the shards answered so far, together and in order, and what they answer now, together and in order, are together and in
/// order what each of them answered, where the first stands below a time and the second from it on.
pub fn answers_of_shards_add_up()
    ensures bag { (n : ℕ) (outs answers : ℕ → List Edge) (out answer : List Edge) →
        SameBag out (over_shards outs n) → SameBag answer (over_shards answers n) →
        SameBag (out ++ answer) (over_shards (λ s. outs s ++ answers s) n) }
    ensures order { (c r : ℕ) (out answer : List Edge) → Rises r out →
        failing (is_below c) out ≡ 0 → Rises 0 answer → failing (is_from c) answer ≡ 0 → r ≤ 2 * c →
        Rises r (out ++ answer) }
{}

/// However keys are given shards: a node may keep as many entries of edges as its shards may together, each of its own.
pub fn shards_keep_as_much()
    ensures { (n : Node) → is_keyed n ≡ true → (shard : List Datum → ℕ) (count : ℕ) →
        ((key : List Datum) → shard key < count) → (x y : ℕ) (hl hr : List Edge) → IsHistory hl →
        IsHistory hr → sum_of_shards (λ s. may_keep_of n x y (left_part shard n s hl)
        (right_part shard n s hr)) count ≡ may_keep_of n x y hl hr }
{}
