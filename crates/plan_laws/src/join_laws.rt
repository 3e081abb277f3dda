// The laws of what anti-joins meet, and of left joins.
ghost use Rattle.std.specs.Prelude.{◌≡◌, ℕ, ◌<◌, nat_eq, IsTrue, Some, List, [], ◌++◌, length, map, slice_get, slice_index_or, All};
ghost use Rattle.std.specs.List.{list_any};
ghost use Rattle.tw_rows.specs.Bag.{SameBag};
ghost use Rattle.tw_rows.specs.Event.{Event, alive};
ghost use Rattle.tw_rows.specs.Instant.{inf};
ghost use Rattle.tw_rows.specs.Rows.{Row};
ghost use Rattle.key_nodes.specs.Antis.{alone_rows};
ghost use Rattle.key_nodes.specs.Joins.{joined_rows};
ghost use Rattle.key_nodes.specs.Runs.{Tells};
ghost use Rattle.plan_model.specs.declared.expr.ExprNode.{ExprNode};
ghost use Rattle.plan_model.specs.declared.node.Node.{Node};
ghost use Rattle.plan_model.specs.Expr.{selected_row};
ghost use Rattle.plan_model.specs.IsPlan.{PlanParts, IsPlan};
ghost use Rattle.plan_model.specs.Keys.{value_ops, keys_equal, paired_row};
ghost use Rattle.plan_model.specs.Meaning.{Sources, events, snapshots, IsOrdered};
ghost use Rattle.plan_model.specs.Nodes.{node_in};
ghost use Rattle.plan_model.specs.RowOps.{RowOps};
ghost use Rattle.plan_laws.specs.LeftJoin.{filling_items, IsLeftJoin};
ghost use Rattle.plan_laws.specs.OneAKey.{HasOneAKey};
ghost use Rattle.plan_laws.specs.Widths.{FitStreams};

/// Of a group whose key columns are its only columns, no two rows that are alive at one instant have the same values in
/// columns that are all of them, for rows of any kind.
pub fn groups_of_keys_have_one_a_key<X>()
    ensures { (ops : RowOps X) → Tells ops.same → (key right_key : List ℕ) →
        ((column : ℕ) → column < length key → IsTrue (list_any (nat_eq column) right_key)) →
        (child : ℕ) (a b : List (Event (List X))) (t : ℕ) → t < inf →
        HasOneAKey ops right_key (alive (node_in ops (Node.Group child key []) a b) t) }
{}

/// Where no two of some rows have the same key, so it is in whatever order they stand, and of rows from which these are
/// read element by element, as places are read as texts.
pub fn one_a_key_is_read_back<X, Y>()
    ensures order { (ops : RowOps X) (key : List ℕ) (xs ys : List (List X)) → SameBag xs ys →
        HasOneAKey ops key xs → HasOneAKey ops key ys }
    ensures reading { (f : X → Y) (before : RowOps X) (after : RowOps Y) →
        f before.zero ≡ after.zero → Tells before.same → Tells after.same →
        (key : List ℕ) (rows : List (List X)) → HasOneAKey after key (map (map f) rows) →
        HasOneAKey before key rows }
{}

/// At each instant at most one right row a key is alive of what an anti-join of a plan reads.
pub fn antis_meet_one_row_a_key()
    ensures { (plan : PlanParts) → IsPlan plan →
        (source : Sources) (i left right t : ℕ) (left_key right_key : List ℕ) →
        slice_get plan.nodes i ≡ Some (Node.Anti left right left_key right_key) → t < inf →
        HasOneAKey value_ops right_key (alive (events source plan.nodes right) t) }
{}

/// A left join has at each instant the pairs of rows with equal keys, and each left row without a partner as the items
/// make it: where these are the columns of rows that wide and then some values, the row followed by the values. The left
/// rows of a plan are as wide as their schema.
pub fn left_joins_have_the_rows()
    ensures items { (source : Sources) (nodes : List Node) → IsOrdered nodes →
        (left right : ℕ) (left_key right_key : List ℕ) (items : List (List ExprNode)) (root : ℕ) →
        IsLeftJoin nodes left right left_key right_key items root → (t : ℕ) →
        snapshots source nodes root t ≡ joined_rows (keys_equal left_key right_key)
        (paired_row right_key) (snapshots source nodes left t) (snapshots source nodes right t)
        ++ map (selected_row items) (alone_rows (keys_equal left_key right_key)
        (snapshots source nodes left t) (snapshots source nodes right t)) }
    ensures filled { (source : Sources) (nodes : List Node) → IsOrdered nodes →
        (left right : ℕ) (left_key right_key : List ℕ) (width : ℕ) (fills : Row) (root t : ℕ) →
        IsLeftJoin nodes left right left_key right_key (filling_items width fills) root →
        All (λ l. length l ≡ width) (snapshots source nodes left t) →
        snapshots source nodes root t ≡ joined_rows (keys_equal left_key right_key)
        (paired_row right_key) (snapshots source nodes left t) (snapshots source nodes right t)
        ++ map (λ l. l ++ fills) (alone_rows (keys_equal left_key right_key)
        (snapshots source nodes left t) (snapshots source nodes right t)) }
    ensures plan { (plan : PlanParts) → IsPlan plan → (source : Sources) →
        FitStreams plan.streams source → (left right : ℕ) (left_key right_key : List ℕ)
        (fills : Row) (root t : ℕ) → left < length plan.nodes → t < inf →
        IsLeftJoin plan.nodes left right left_key right_key
        (filling_items (length (slice_index_or plan.schemas left [])) fills) root →
        snapshots source plan.nodes root t ≡ joined_rows (keys_equal left_key right_key)
        (paired_row right_key) (snapshots source plan.nodes left t)
        (snapshots source plan.nodes right t) ++ map
        (λ l. l ++ fills) (alone_rows (keys_equal left_key right_key)
        (snapshots source plan.nodes left t) (snapshots source plan.nodes right t)) }
{}
