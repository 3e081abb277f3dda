// The laws of what expressions and plans mean. Each is a function that does nothing; its clauses are the law.
ghost use Rattle.std.specs.Prelude.{◌≡◌, ◌↔◌, IsTrue, ℕ, ℤ, int_lt, int_le, not, ◌+◌, ◌-◌, ◌<◌};
ghost use Rattle.std.specs.Prelude.{◌≤◌, min, List, [], ◌∷◌, ◌++◌, length, map, filter, slice_get};
ghost use Rattle.std.specs.Prelude.{true, ◌*◌, cond, nat_eq, pos, ◌≤ℤ◌};
ghost use Rattle.std.specs.Int.{int_div_euclid};
ghost use Rattle.std.specs.List.{list_any};
ghost use Rattle.tw_rows.specs.Bag.{SameBag};
ghost use Rattle.tw_rows.specs.Event.{Event, alive, AreEvents, Known};
ghost use Rattle.tw_rows.specs.Instant.{inf, later, floor_to};
ghost use Rattle.tw_rows.specs.Rows.{Row};
ghost use Rattle.key_nodes.specs.Antis.{alone_rows, alone};
ghost use Rattle.key_nodes.specs.Clips.{clipped};
ghost use Rattle.key_nodes.specs.Groups.{has_key, IsGroupRow, grouped_rows, grouped};
ghost use Rattle.key_nodes.specs.Coalesced.{coalesced};
ghost use Rattle.key_nodes.specs.Follows.{followed};
ghost use Rattle.key_nodes.specs.Sessions.{sessions};
ghost use Rattle.key_nodes.specs.Tops.{top_rows};
ghost use Rattle.plan_model.specs.Means.{mean_of, mean_row};
ghost use Rattle.plan_model.specs.declared.agg.Agg.{Agg};
ghost use Rattle.plan_model.specs.declared.expr.ExprNode.{ExprNode};
ghost use Rattle.plan_model.specs.declared.node.Node.{Node};
ghost use Rattle.plan_model.specs.IsExpr.{IsExpr};
ghost use Rattle.plan_model.specs.Expr.{node_value, value_at, value, holds, selected_row};
ghost use Rattle.plan_model.specs.Keys.{key_values, rows_equal, value_ops, keys_equal, paired_row};
ghost use Rattle.plan_model.specs.Amounts.{least_int, greatest_int};
ghost use Rattle.plan_model.specs.Groups.{agg_value, row_of_group, is_undefined};
ghost use Rattle.plan_model.specs.RowOps.{RowOps, int_in};
ghost use Rattle.plan_model.specs.Nodes.{event_to, events_to, node_in};
ghost use Rattle.key_nodes.specs.Runs.{Tells};
ghost use Rattle.key_nodes.specs.Joins.{joined_rows, joined};
ghost use Rattle.plan_model.specs.Lives.{moved_one, moved, hopped_one, hopped, lasting_one, lasting, extended_one, extended};
ghost use Rattle.plan_model.specs.Meaning.{Sources, left_of, right_of, node_events, events};
ghost use Rattle.plan_model.specs.Meaning.{node_closes, closes, nothing, by_events, node_meaning};
ghost use Rattle.plan_model.specs.Meaning.{meaning, snapshots, IsOrdered, IsLevelled};

/// Each node of an expression has the value that its kind makes of its operands' values, and the expression has the
/// value of its last node.
pub fn value_is()
    ensures node { (expr : List ExprNode) (row : Row) (i : ℕ) (n : ExprNode) →
        IsExpr expr → slice_get expr i ≡ Some n →
        value_at expr row i ≡ node_value row n (value_at expr row) }
    ensures root { (expr : List ExprNode) (row : Row) →
        value expr row ≡ value_at expr row (length expr - 1) }
{}

/// A Source has the events of its stream, its rows are those that are alive, and it is closed up to the punctuation `p`.
pub fn source_is()
    ensures events { (source : Sources) (nodes : List Node) (i stream : ℕ) →
        IsOrdered nodes → slice_get nodes i ≡ Some (Node.Source stream) →
        events source nodes i ≡ source stream }
    ensures rows { (source : Sources) (nodes : List Node) (i stream t : ℕ) →
        IsOrdered nodes → slice_get nodes i ≡ Some (Node.Source stream) →
        snapshots source nodes i t ≡ alive (source stream) t }
    ensures closing { (nodes : List Node) (i stream p : ℕ) →
        IsOrdered nodes → slice_get nodes i ≡ Some (Node.Source stream) →
        closes nodes i p ≡ p }
{}

/// A Where has those events and, at each instant, those rows of its child for which the test is true, and is closed where
/// the child is.
pub fn where_is()
    ensures events { (source : Sources) (nodes : List Node) (i child : ℕ) (test : List ExprNode) →
        IsOrdered nodes → slice_get nodes i ≡ Some (Node.Where child test) →
        events source nodes i ≡ filter (λ e. holds test e.row) (events source nodes child) }
    ensures rows { (source : Sources) (nodes : List Node) (i child t : ℕ) (test : List ExprNode) →
        IsOrdered nodes → slice_get nodes i ≡ Some (Node.Where child test) →
        snapshots source nodes i t ≡ filter (holds test) (snapshots source nodes child t) }
    ensures closing { (nodes : List Node) (i child p : ℕ) (test : List ExprNode) →
        IsOrdered nodes → slice_get nodes i ≡ Some (Node.Where child test) →
        closes nodes i p ≡ closes nodes child p }
{}

/// A Select has the events and, at each instant, the rows of its child with each row replaced by the items' values, and is
/// closed where the child is.
pub fn select_is()
    ensures events { (source : Sources) (nodes : List Node) (i child : ℕ)
        (items : List (List ExprNode)) → IsOrdered nodes →
        slice_get nodes i ≡ Some (Node.Select child items) →
        events source nodes i ≡ events_to (selected_row items) (events source nodes child) }
    ensures rows { (source : Sources) (nodes : List Node) (i child t : ℕ)
        (items : List (List ExprNode)) → IsOrdered nodes →
        slice_get nodes i ≡ Some (Node.Select child items) →
        snapshots source nodes i t ≡ map (selected_row items) (snapshots source nodes child t) }
    ensures closing { (nodes : List Node) (i child p : ℕ) (items : List (List ExprNode)) →
        IsOrdered nodes → slice_get nodes i ≡ Some (Node.Select child items) →
        closes nodes i p ≡ closes nodes child p }
{}

/// A Union has the events and, at each instant, the rows of both children, and is closed up to the lesser of their
/// closings.
pub fn union_is()
    ensures events { (source : Sources) (nodes : List Node) (i left right : ℕ) →
        IsOrdered nodes → slice_get nodes i ≡ Some (Node.Union left right) →
        events source nodes i ≡ events source nodes left ++ events source nodes right }
    ensures rows { (source : Sources) (nodes : List Node) (i left right t : ℕ) → IsOrdered nodes →
        slice_get nodes i ≡ Some (Node.Union left right) →
        snapshots source nodes i t ≡ snapshots source nodes left t
        ++ snapshots source nodes right t }
    ensures closing { (nodes : List Node) (i left right p : ℕ) →
        IsOrdered nodes → slice_get nodes i ≡ Some (Node.Union left right) →
        closes nodes i p ≡ min (closes nodes left p) (closes nodes right p) }
{}

/// A Delay has the events of its child, each moved; at each instant it has the rows that its child has `by` earlier, and
/// none before `by`; and it is closed `by` later than its child.
pub fn delay_is()
    ensures events { (source : Sources) (nodes : List Node) (i child by : ℕ) →
        IsOrdered nodes → slice_get nodes i ≡ Some (Node.Delay child by) →
        events source nodes i ≡ moved by (events source nodes child) }
    ensures rows { (source : Sources) (nodes : List Node) (i child by t : ℕ) →
        IsOrdered nodes → slice_get nodes i ≡ Some (Node.Delay child by) → by ≤ t →
        snapshots source nodes i t ≡ snapshots source nodes child (t - by) }
    ensures no_rows { (source : Sources) (nodes : List Node) (i child by t : ℕ) →
        IsOrdered nodes → slice_get nodes i ≡ Some (Node.Delay child by) → t < by →
        snapshots source nodes i t ≡ [] }
    ensures closing { (nodes : List Node) (i child by p : ℕ) →
        IsOrdered nodes → slice_get nodes i ≡ Some (Node.Delay child by) →
        closes nodes i p ≡ later by (closes nodes child p) }
{}

/// A Hop has the events of its child, each over a lifetime of that size from a multiple of the period on, its rows are those
/// that are alive, and it is closed up to a multiple of the period.
pub fn hop_is()
    ensures events { (source : Sources) (nodes : List Node) (i child size period : ℕ) →
        IsOrdered nodes → slice_get nodes i ≡ Some (Node.Hop child size period) →
        events source nodes i ≡ hopped size period (events source nodes child) }
    ensures rows { (source : Sources) (nodes : List Node) (i child size period t : ℕ) →
        IsOrdered nodes → IsLevelled nodes → slice_get nodes i ≡ Some (Node.Hop child size period) →
        SameBag (snapshots source nodes i t) (alive
        (hopped size period (events source nodes child)) t) }
    ensures closing { (nodes : List Node) (i child size period p : ℕ) →
        IsOrdered nodes → slice_get nodes i ≡ Some (Node.Hop child size period) →
        closes nodes i p ≡ floor_to period (closes nodes child p) }
{}

/// A Duration has the events of its child, each over a lifetime that lasts so long, its rows are those that are alive, and it
/// is closed where the child is.
pub fn duration_is()
    ensures events { (source : Sources) (nodes : List Node) (i child by : ℕ) →
        IsOrdered nodes → slice_get nodes i ≡ Some (Node.Duration child by) →
        events source nodes i ≡ lasting by (events source nodes child) }
    ensures rows { (source : Sources) (nodes : List Node) (i child by t : ℕ) →
        IsOrdered nodes → IsLevelled nodes → slice_get nodes i ≡ Some (Node.Duration child by) →
        SameBag (snapshots source nodes i t) (alive (lasting by (events source nodes child)) t) }
    ensures closing { (nodes : List Node) (i child by p : ℕ) →
        IsOrdered nodes → slice_get nodes i ≡ Some (Node.Duration child by) →
        closes nodes i p ≡ closes nodes child p }
{}

/// An Extend has the events of its child, each with an end that is so much later, its rows are those that are alive, and
/// it is closed where the child is.
pub fn extend_is()
    ensures events { (source : Sources) (nodes : List Node) (i child by : ℕ) →
        IsOrdered nodes → slice_get nodes i ≡ Some (Node.Extend child by) →
        events source nodes i ≡ extended by (events source nodes child) }
    ensures rows { (source : Sources) (nodes : List Node) (i child by t : ℕ) →
        IsOrdered nodes → IsLevelled nodes → slice_get nodes i ≡ Some (Node.Extend child by) →
        SameBag (snapshots source nodes i t) (alive (extended by (events source nodes child)) t) }
    ensures closing { (nodes : List Node) (i child by p : ℕ) →
        IsOrdered nodes → slice_get nodes i ≡ Some (Node.Extend child by) →
        closes nodes i p ≡ closes nodes child p }
{}

/// A Session has the events of its child, each up to the end of the session of its key, where the timeout is at least 1; its
/// rows are those that are alive; and it is closed where its child is. Keys are equal where their values are.
pub fn session_is()
    ensures events { (source : Sources) (nodes : List Node) (i child timeout : ℕ) (key : List ℕ) →
        IsOrdered nodes → slice_get nodes i ≡ Some (Node.Session child timeout key) → 1 ≤ timeout →
        events source nodes i ≡ sessions (key_values key) rows_equal timeout
        (events source nodes child) }
    ensures no_timeout { (source : Sources) (nodes : List Node) (i child : ℕ) (key : List ℕ) →
        IsOrdered nodes → slice_get nodes i ≡ Some (Node.Session child 0 key) →
        events source nodes i ≡ [] }
    ensures rows { (source : Sources) (nodes : List Node) (i child timeout t : ℕ) (key : List ℕ) →
        IsOrdered nodes → IsLevelled nodes → slice_get nodes i
        ≡ Some (Node.Session child timeout key) → 1 ≤ timeout →
        SameBag (snapshots source nodes i t) (alive
        (sessions (key_values key) rows_equal timeout (events source nodes child)) t) }
    ensures closing { (nodes : List Node) (i child timeout p : ℕ) (key : List ℕ) →
        IsOrdered nodes → slice_get nodes i ≡ Some (Node.Session child timeout key) →
        closes nodes i p ≡ closes nodes child p }
    ensures keys { (a b : Row) → IsTrue (rows_equal a b) ↔ (a ≡ b) }
{}

/// A Clip has the events of its left child, each up to the least of its end and the later starts of right events with an
/// equal key; its rows are those that are alive; and it is closed up to the lesser of its children's closings.
pub fn clip_is()
    ensures events { (source : Sources) (nodes : List Node) (i left right : ℕ)
        (left_key right_key : List ℕ) → IsOrdered nodes →
        slice_get nodes i ≡ Some (Node.Clip left right left_key right_key) →
        events source nodes i ≡ clipped (keys_equal left_key right_key) (events source nodes left)
        (events source nodes right) }
    ensures rows { (source : Sources) (nodes : List Node) (i left right t : ℕ)
        (left_key right_key : List ℕ) → IsOrdered nodes → IsLevelled nodes →
        slice_get nodes i ≡ Some (Node.Clip left right left_key right_key) →
        SameBag (snapshots source nodes i t) (alive
        (clipped (keys_equal left_key right_key) (events source nodes left)
        (events source nodes right)) t) }
    ensures closing { (nodes : List Node) (i left right p : ℕ) (left_key right_key : List ℕ) →
        IsOrdered nodes → slice_get nodes i ≡ Some (Node.Clip left right left_key right_key) →
        closes nodes i p ≡ min (closes nodes left p) (closes nodes right p) }
{}

/// A Group has for each key an event for each maximal run of instants at which its group has the same row; at each instant
/// it has one row for each key that a row has; and it is closed where its child is. The rows of a group are those whose
/// values in the key are its own, and their order is free.
pub fn group_is()
    ensures events { (source : Sources) (nodes : List Node) (i child : ℕ) (key : List ℕ)
        (aggs : List Agg) → IsOrdered nodes → slice_get nodes i ≡ Some (Node.Group child key aggs) →
        events source nodes i ≡ grouped (key_values key) rows_equal rows_equal
        (row_of_group key aggs) (events source nodes child) }
    ensures rows { (source : Sources) (nodes : List Node) (i child t : ℕ) (key : List ℕ)
        (aggs : List Agg) → IsOrdered nodes → slice_get nodes i ≡ Some (Node.Group child key aggs) →
        snapshots source nodes i t ≡ grouped_rows (key_values key) rows_equal
        (row_of_group key aggs) (snapshots source nodes child t) }
    ensures closing { (nodes : List Node) (i child p : ℕ) (key : List ℕ) (aggs : List Agg) →
        IsOrdered nodes → slice_get nodes i ≡ Some (Node.Group child key aggs) →
        closes nodes i p ≡ closes nodes child p }
    ensures keys { (key : List ℕ) (values row : Row) →
        IsTrue (has_key (key_values key) rows_equal values row) ↔ (values ≡ key_values key row) }
    ensures order { (key : List ℕ) (aggs : List Agg) →
        IsGroupRow (key_values key) rows_equal (row_of_group key aggs) }
{}

/// The least int is at least `z` exactly where no int is below `z`, and the greatest is at most `z` exactly where no int is
/// above it. What an aggregate makes of rows depends on their multiset alone.
pub fn aggregates_are()
    ensures least { (z x : ℤ) (xs : List ℤ) →
        int_le z (least_int (x ∷ xs)) ≡ not (list_any (λ v. int_lt v z) (x ∷ xs)) }
    ensures greatest { (z x : ℤ) (xs : List ℤ) →
        int_le (greatest_int (x ∷ xs)) z ≡ not (list_any (λ v. int_lt z v) (x ∷ xs)) }
    ensures order { (a : Agg) (xs ys : List Row) → SameBag xs ys → agg_value a xs ≡ agg_value a ys }
{}

/// Whether one of the groups of some rows has too many rows, or a sum outside i64, depends on the multiset of the rows alone.
pub fn undefined_groups_have_no_order()
    ensures { (key : List ℕ) (aggs : List Agg) (xs ys : List Row) → SameBag xs ys →
        is_undefined key aggs xs ≡ is_undefined key aggs ys }
{}

/// A Join has an event for each pair of a left and a right event with equal keys that are alive at one instant, over all
/// such instants; at each instant it has the pairs of its children's rows; and it is closed up to the lesser of their
/// closings. Keys are equal where their values are.
pub fn join_is()
    ensures events { (source : Sources) (nodes : List Node) (i left right : ℕ)
        (left_key right_key : List ℕ) → IsOrdered nodes →
        slice_get nodes i ≡ Some (Node.Join left right left_key right_key) →
        events source nodes i ≡ joined (keys_equal left_key right_key) (paired_row right_key)
        (events source nodes left) (events source nodes right) }
    ensures rows { (source : Sources) (nodes : List Node) (i left right t : ℕ)
        (left_key right_key : List ℕ) → IsOrdered nodes →
        slice_get nodes i ≡ Some (Node.Join left right left_key right_key) →
        snapshots source nodes i t ≡ joined_rows (keys_equal left_key right_key)
        (paired_row right_key) (snapshots source nodes left t) (snapshots source nodes right t) }
    ensures closing { (nodes : List Node) (i left right p : ℕ) (left_key right_key : List ℕ) →
        IsOrdered nodes → slice_get nodes i ≡ Some (Node.Join left right left_key right_key) →
        closes nodes i p ≡ min (closes nodes left p) (closes nodes right p) }
    ensures keys { (left_key right_key : List ℕ) (a b : Row) →
        IsTrue (keys_equal left_key right_key a b) ↔
        (key_values left_key a ≡ key_values right_key b) }
{}

/// An Anti has for each left event an event for each maximal run of instants of its lifetime at which no right event with an
/// equal key is alive; at each instant it has the left rows to whose key no right row is there; and it is closed up to the
/// lesser of its children's closings.
pub fn anti_is()
    ensures events { (source : Sources) (nodes : List Node) (i left right : ℕ)
        (left_key right_key : List ℕ) → IsOrdered nodes →
        slice_get nodes i ≡ Some (Node.Anti left right left_key right_key) →
        events source nodes i ≡ alone rows_equal (keys_equal left_key right_key)
        (events source nodes left) (events source nodes right) }
    ensures rows { (source : Sources) (nodes : List Node) (i left right t : ℕ)
        (left_key right_key : List ℕ) → IsOrdered nodes →
        slice_get nodes i ≡ Some (Node.Anti left right left_key right_key) →
        snapshots source nodes i t ≡ alone_rows (keys_equal left_key right_key)
        (snapshots source nodes left t) (snapshots source nodes right t) }
    ensures closing { (nodes : List Node) (i left right p : ℕ) (left_key right_key : List ℕ) →
        IsOrdered nodes → slice_get nodes i ≡ Some (Node.Anti left right left_key right_key) →
        closes nodes i p ≡ min (closes nodes left p) (closes nodes right p) }
{}

/// A Coalesce has the coalesced events of the rows of its child: of each row from the j-th instant at which it comes to stand
/// more often up to the j-th at which it comes to stand less often. At each instant it has the rows of its child; and it is
/// closed where the child is.
pub fn coalesce_is()
    ensures events { (source : Sources) (nodes : List Node) (i child : ℕ) →
        IsOrdered nodes → slice_get nodes i ≡ Some (Node.Coalesce child) →
        events source nodes i ≡ coalesced rows_equal (alive (events source nodes child)) }
    ensures rows { (source : Sources) (nodes : List Node) (i child t : ℕ) →
        IsOrdered nodes → slice_get nodes i ≡ Some (Node.Coalesce child) → t < inf →
        SameBag (snapshots source nodes i t) (snapshots source nodes child t) }
    ensures closing { (nodes : List Node) (i child p : ℕ) →
        IsOrdered nodes → slice_get nodes i ≡ Some (Node.Coalesce child) →
        closes nodes i p ≡ closes nodes child p }
{}

/// A Mean has the events and, at each instant, the rows of its child with each row replaced: without its last column, and
/// with the columns `at` divided by that one. It is closed where the child is.
pub fn mean_is()
    ensures events { (source : Sources) (nodes : List Node) (i child : ℕ) (at : List ℕ) →
        IsOrdered nodes → slice_get nodes i ≡ Some (Node.Mean child at) →
        events source nodes i ≡ events_to (mean_row value_ops at) (events source nodes child) }
    ensures rows { (source : Sources) (nodes : List Node) (i child t : ℕ) (at : List ℕ) →
        IsOrdered nodes → slice_get nodes i ≡ Some (Node.Mean child at) →
        snapshots source nodes i t ≡ map (mean_row value_ops at) (snapshots source nodes child t) }
    ensures closing { (nodes : List Node) (i child p : ℕ) (at : List ℕ) →
        IsOrdered nodes → slice_get nodes i ≡ Some (Node.Mean child at) →
        closes nodes i p ≡ closes nodes child p }
{}

/// A row with averages has all columns but the last, and in each of the columns `at` the quotient by the last one. Where
/// that is at least 1, the quotient is the Euclidean one; else the column stays.
pub fn means_are<X>()
    ensures length { (ops : RowOps X) (at : List ℕ) (row : List X) →
        length (mean_row ops at row) ≡ length row - 1 }
    ensures column { (ops : RowOps X) (at : List ℕ) (row : List X) (i : ℕ) (x : X) →
        slice_get row i ≡ Some x → i + 1 < length row →
        slice_get (mean_row ops at row) i
        ≡ Some (cond (list_any (nat_eq i) at) (mean_of ops (int_in ops (length row - 1) row) x) x) }
    ensures divided { (ops : RowOps X) (count : ℕ) (x : X) → 1 ≤ count →
        mean_of ops (pos count) x ≡ ops.of_int (int_div_euclid (ops.int_of x) (pos count)) }
    ensures not_divided { (ops : RowOps X) (count : ℤ) (x : X) → count ≤ℤ pos 0 →
        mean_of ops count x ≡ x }
{}

/// A Top has at each instant the rows of its child of whose key fewer than `count` rows have a greater int in the column
/// `by`; its events are the coalesced events of these rows; and it is closed where the child is.
pub fn top_is()
    ensures events { (source : Sources) (nodes : List Node) (i child by count : ℕ) (key : List ℕ) →
        IsOrdered nodes → slice_get nodes i ≡ Some (Node.Top child key by count) →
        events source nodes i ≡ coalesced rows_equal
        (λ t. top_rows (keys_equal key key) (int_in value_ops by) count
        (alive (events source nodes child) t)) }
    ensures rows { (source : Sources) (nodes : List Node) (i child t by count : ℕ) (key : List ℕ) →
        IsOrdered nodes → slice_get nodes i ≡ Some (Node.Top child key by count) →
        snapshots source nodes i t ≡ top_rows (keys_equal key key) (int_in value_ops by) count
        (snapshots source nodes child t) }
    ensures closing { (nodes : List Node) (i child p by count : ℕ) (key : List ℕ) →
        IsOrdered nodes → slice_get nodes i ≡ Some (Node.Top child key by count) →
        closes nodes i p ≡ closes nodes child p }
{}

/// A Follow has for each left event an event for each right event of its key that starts next after it and within the time;
/// its rows are those that are alive; and it is closed up to the lesser of its children's closings.
pub fn follow_is()
    ensures events { (source : Sources) (nodes : List Node) (i left right within : ℕ)
        (left_key right_key : List ℕ) → IsOrdered nodes →
        slice_get nodes i ≡ Some (Node.Follow left right left_key right_key within) →
        events source nodes i ≡ followed (keys_equal left_key right_key)
        (paired_row right_key) within (events source nodes left) (events source nodes right) }
    ensures rows { (source : Sources) (nodes : List Node) (i left right t within : ℕ)
        (left_key right_key : List ℕ) → IsOrdered nodes → IsLevelled nodes →
        slice_get nodes i ≡ Some (Node.Follow left right left_key right_key within) →
        SameBag (snapshots source nodes i t) (alive
        (followed (keys_equal left_key right_key) (paired_row right_key) within
        (events source nodes left) (events source nodes right)) t) }
    ensures closing { (nodes : List Node) (i left right p within : ℕ)
        (left_key right_key : List ℕ) → IsOrdered nodes →
        slice_get nodes i ≡ Some (Node.Follow left right left_key right_key within) →
        closes nodes i p ≡ min (closes nodes left p) (closes nodes right p) }
{}

/// A change of lifetimes makes one event of each event, where a size or a duration is at least 1; only one that would start at
/// infinity is none. A time rounded down is the greatest multiple of the period that is not above it.
pub fn lives_change()
    ensures moved { (by : ℕ) (e : Event Row) → e.start < e.end → e.start + by < inf →
        moved_one by e ≡ record { row = e.row; start = e.start + by; end = later by e.end } ∷ [] }
    ensures moved_past { (by : ℕ) (e : Event Row) → inf ≤ e.start + by → moved_one by e ≡ [] }
    ensures hopped { (size period : ℕ) (e : Event Row) → 1 ≤ size → e.start < inf →
        hopped_one size period e
        ≡ record {
          row = e.row;
          start = floor_to period e.start;
          end = later size (floor_to period e.start);
        } ∷ [] }
    ensures multiple { (period t : ℕ) → 1 ≤ period → t < inf → (k : ℕ)
        × (floor_to period t ≡ period * k) × (floor_to period t ≤ t)
        × (t < floor_to period t + period) }
    ensures lasting { (by : ℕ) (e : Event Row) → 1 ≤ by → e.start < inf →
        lasting_one by e ≡ record { row = e.row; start = e.start; end = later by e.start } ∷ [] }
    ensures extended { (by : ℕ) (e : Event Row) → e.start < e.end → e.end ≤ inf →
        extended_one by e ≡ record { row = e.row; start = e.start; end = later by e.end } ∷ [] }
{}

/// Each node, of any kind, is its own case over its children: its events, its meaning and its closing are made of what it
/// reads from its stream or from its children.
pub fn result_is()
    ensures events { (source : Sources) (nodes : List Node) (i : ℕ) (n : Node) →
        IsOrdered nodes → slice_get nodes i ≡ Some n →
        events source nodes i
        ≡ node_events n (left_of [] source (events source nodes) n)
        (right_of [] (events source nodes) n) }
    ensures meaning { (source : Sources) (nodes : List Node) (i : ℕ) (n : Node) →
        IsOrdered nodes → slice_get nodes i ≡ Some n →
        meaning source nodes i
        ≡ node_meaning n
        (left_of nothing (λ s. by_events (source s)) (meaning source nodes) n)
        (right_of nothing (meaning source nodes) n) }
    ensures closing { (nodes : List Node) (i p : ℕ) (n : Node) →
        IsOrdered nodes → slice_get nodes i ≡ Some n →
        closes nodes i p
        ≡ node_closes n (left_of inf (λ s. p) (λ j. closes nodes j p) n)
        (right_of inf (λ j. closes nodes j p) n) }
{}

/// The events of each node have lifetimes that begin before they end, where those of the sources have.
pub fn events_have_lives()
    ensures { (source : Sources) (nodes : List Node) → IsOrdered nodes →
        ((s : ℕ) → AreEvents (source s)) → (n : ℕ) → AreEvents (events source nodes n) }
{}

/// Snapshots: at each instant the events of a node that are alive are the rows of the node. A node that has events of its
/// own has just these, as a multiset.
pub fn snapshots_agree()
    ensures rows { (source : Sources) (nodes : List Node) → IsOrdered nodes → IsLevelled nodes →
        (n t : ℕ) → t < inf →
        SameBag (alive (events source nodes n) t) (snapshots source nodes n t) }
    ensures events { (source : Sources) (nodes : List Node) → IsOrdered nodes → IsLevelled nodes →
        (n : ℕ) → (meaning source nodes n).has_events ≡ true →
        SameBag (events source nodes n) (meaning source nodes n).events }
{}

/// Causality: what is known of a node's events below its closing depends only on what is known of its children's events
/// below theirs. `x` and `y` are the closings of the children.
pub fn nodes_are_causal()
    ensures { (n : Node) (x y : ℕ) (a b c d : List (Event Row)) → Known x a c → Known y b d →
        Known (node_closes n x y) (node_events n a b) (node_events n c d) }
{}

/// The same holds over rows of any kind, of which `same` tells whether they are equal.
pub fn nodes_are_causal_over<X>()
    ensures { (ops : RowOps X) → Tells ops.same →
        (n : Node) (x y : ℕ) (a b c d : List (Event (List X))) → Known x a c → Known y b d →
        Known (node_closes n x y) (node_in ops n a b) (node_in ops n c d) }
{}

/// Over rows of any kind a node of the same multisets of events has the same multiset of events.
pub fn nodes_have_no_order<X>()
    ensures { (ops : RowOps X) → Tells ops.same → (n : Node) (a b c d : List (Event (List X))) →
        AreEvents a → AreEvents b → AreEvents c → AreEvents d → SameBag a c → SameBag b d →
        SameBag (node_in ops n a b) (node_in ops n c d) }
{}

/// Finality: where later lines leave what is known of the sources below the punctuation `p`, they leave the rows of each
/// node at each instant below the node's closing.
pub fn snapshots_are_final()
    ensures { (p : ℕ) (source later_source : Sources) (nodes : List Node) →
        IsOrdered nodes → IsLevelled nodes →
        ((s : ℕ) → Known p (source s) (later_source s)) →
        (n t : ℕ) → t < closes nodes n p →
        SameBag (snapshots source nodes n t) (snapshots later_source nodes n t) }
{}
