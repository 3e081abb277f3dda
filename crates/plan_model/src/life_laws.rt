// The laws of joins and of changes of lifetimes, for rows of any type. Each is a function that does nothing; its clauses are
// the law.
ghost use Rattle.std.specs.Prelude.{ℕ, ◌-◌, ◌<◌, min, nat_le, Bool, cond, List, []};
ghost use Rattle.tw_rows.specs.Bag.{SameBag};
ghost use Rattle.tw_rows.specs.Event.{Event, alive, Known};
ghost use Rattle.tw_rows.specs.Instant.{inf, later, floor_to};
ghost use Rattle.key_nodes.specs.Joins.{joined_rows, joined};
ghost use Rattle.plan_model.specs.Lives.{moved, hopped, lasting, extended, in_sessions};

/// Snapshots: at each instant the joined events that are alive are the joined rows of those that are alive on both sides.
pub fn joins_have_the_rows<L, R, P>()
    ensures { (meets : L → R → Bool) (pair : L → R → P) (xs : List (Event L)) (ys : List (Event R))
        (left : List L) (right : List R) (t : ℕ) →
        SameBag (alive xs t) left → SameBag (alive ys t) right →
        SameBag (alive (joined meets pair xs ys) t) (joined_rows meets pair left right) }
{}

/// Causality: what is known of joined events below the lesser of `x` and `y` depends only on what is known of the left events
/// below `x` and of the right ones below `y`.
pub fn joins_are_causal<L, R, P>()
    ensures { (meets : L → R → Bool) (pair : L → R → P) (x y : ℕ) (a c : List (Event L))
        (b d : List (Event R)) → Known x a c → Known y b d →
        Known (min x y) (joined meets pair a b) (joined meets pair c d) }
{}

/// Snapshots: the rows of moved events at an instant are those that are alive so much earlier, and none before.
pub fn moved_events_have_the_rows<R>()
    ensures { (by : ℕ) (es : List (Event R)) (rows : ℕ → List R) (t : ℕ) → t < inf →
        ((u : ℕ) → u < inf → SameBag (alive es u) (rows u)) →
        SameBag (alive (moved by es) t) (cond (nat_le by t) (rows (t - by)) []) }
{}

/// Causality of each change of lifetimes: what is known of the changed events below a time depends only on what is known of the
/// events below theirs.
pub fn lives_are_causal<R, K>()
    ensures moved { (by c : ℕ) (a b : List (Event R)) → Known c a b →
        Known (later by c) (moved by a) (moved by b) }
    ensures hopped { (size period c : ℕ) (a b : List (Event R)) → Known c a b →
        Known (floor_to period c) (hopped size period a) (hopped size period b) }
    ensures lasting { (by c : ℕ) (a b : List (Event R)) → Known c a b →
        Known c (lasting by a) (lasting by b) }
    ensures extended { (by c : ℕ) (a b : List (Event R)) → Known c a b →
        Known c (extended by a) (extended by b) }
    ensures in_sessions { (key : R → K) (same : K → K → Bool) (timeout c : ℕ)
        (a b : List (Event R)) → Known c a b → Known c (in_sessions key same timeout a)
        (in_sessions key same timeout b) }
{}
