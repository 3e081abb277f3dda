// The laws of shards of a node with a key, over rows of any kind.
ghost use Rattle.std.specs.Prelude.{◌≡◌, ℕ, ◌<◌, ◌≤◌, true, List};
ghost use Rattle.tw_rows.specs.Instant.{inf};
ghost use Rattle.tw_rows.specs.Bag.{SameBag};
ghost use Rattle.tw_rows.specs.declared.cells.Datum.{Datum};
ghost use Rattle.tw_rows.specs.declared.edge.Edge.{Edge};
ghost use Rattle.tw_rows.specs.Event.{Event, alive};
ghost use Rattle.key_nodes.specs.Runs.{Tells};
ghost use Rattle.key_nodes.specs.Shards.{of_shard, over_shards};
ghost use Rattle.edge_history.specs.Order.{Rises, IsHistory};
ghost use Rattle.plan_model.specs.CellOps.{cell_ops};
ghost use Rattle.plan_model.specs.declared.agg.Agg.{Agg};
ghost use Rattle.plan_model.specs.declared.node.Node.{Node};
ghost use Rattle.plan_model.specs.RowOps.{RowOps, key_in, is_undefined_in};
ghost use Rattle.plan_model.specs.Nodes.{node_in};
ghost use Rattle.plan_laws.specs.CellTests.{CellTest, CellSelect};
ghost use Rattle.plan_laws.specs.Places.{EdgesArePlaced};
ghost use Rattle.plan_laws.specs.Keeping.{Keeps, KeepsAhead};
ghost use Rattle.plan_laws.specs.Shards.{is_keyed, left_key_of, right_key_of, any_shard, rows_of_shard, edges_of_shard};

/// However keys are given shards, the events of a Session, a Clip, a Group, a Join or an Anti are those of each shard,
/// together: each side is cut by the shard of its key. A Group is undefined at an instant where it is so in one of its
/// shards.
pub fn nodes_by_shards<X>()
    ensures events { (ops : RowOps X) → Tells ops.same → (shard : List X → ℕ) (n : ℕ) →
        ((k : List X) → shard k < n) → (node : Node) (a b : List (Event (List X))) →
        is_keyed node ≡ true → SameBag (node_in ops node a b)
        (over_shards (λ s. node_in ops node (of_shard
        (λ r. shard (key_in ops (left_key_of node) r)) s a)
        (of_shard (λ r. shard (key_in ops (right_key_of node) r)) s b)) n) }
    ensures undefined { (ops : RowOps X) → Tells ops.same → (shard : List X → ℕ) (n : ℕ) →
        ((k : List X) → shard k < n) → (key : List ℕ) (aggs : List Agg) (rows : List (List X)) →
        is_undefined_in ops key aggs rows ≡ any_shard
        (λ s. is_undefined_in ops key aggs (rows_of_shard
        (λ r. shard (key_in ops key r)) s rows)) n }
    ensures instants { (ops : RowOps X) → Tells ops.same → (shard : List X → ℕ) (n : ℕ) →
        ((k : List X) → shard k < n) → (key : List ℕ) (aggs : List Agg) (a : List (Event (List X)))
        (t : ℕ) → is_undefined_in ops key aggs (alive a t) ≡ any_shard
        (λ s. is_undefined_in ops key aggs (alive
        (of_shard (λ r. shard (key_in ops key r)) s a) t)) n }
{}

/// However keys are given shards, what the shards of a node keep, each of the edges of its own rows, the node keeps of all
/// edges, where the answer is that of all shards together, in order; and so where they may tell ends ahead.
pub fn shards_keep_what_the_node_keeps()
    ensures kept { (test : CellTest) (select : CellSelect) (n : Node) → is_keyed n ≡ true →
        (shard : List Datum → ℕ) (count : ℕ) → ((key : List Datum) → shard key < count) →
        (texts : List (List ℕ)) (x y : ℕ) (left right out : List Edge) (outs : ℕ → List Edge) →
        x ≤ inf → y ≤ inf → IsHistory left → IsHistory right → EdgesArePlaced texts left →
        EdgesArePlaced texts right → ((s : ℕ) → s < count →
        Keeps (cell_ops test select) n texts x y
        (edges_of_shard (λ cells. shard (key_in (cell_ops test select)
        (left_key_of n) cells)) s left) (edges_of_shard
        (λ cells. shard (key_in (cell_ops test select) (right_key_of n) cells)) s right) (outs s)) →
        Rises 0 out → SameBag out (over_shards outs count) →
        Keeps (cell_ops test select) n texts x y left right out }
    ensures ahead { (test : CellTest) (select : CellSelect) (n : Node) → is_keyed n ≡ true →
        (shard : List Datum → ℕ) (count : ℕ) → ((key : List Datum) → shard key < count) →
        (texts : List (List ℕ)) (x y : ℕ) (left right out : List Edge) (outs : ℕ → List Edge) →
        x ≤ inf → y ≤ inf → IsHistory left → IsHistory right → EdgesArePlaced texts left →
        EdgesArePlaced texts right → ((s : ℕ) → s < count →
        KeepsAhead (cell_ops test select) n texts x y
        (edges_of_shard (λ cells. shard (key_in (cell_ops test select)
        (left_key_of n) cells)) s left) (edges_of_shard
        (λ cells. shard (key_in (cell_ops test select) (right_key_of n) cells)) s right) (outs s)) →
        Rises 0 out → SameBag out (over_shards outs count) →
        KeepsAhead (cell_ops test select) n texts x y left right out }
{}
