// The laws of groups.
ghost use Rattle.std.specs.Prelude.{◌≡◌, ℕ, ◌<◌, Bool, Option, None, List, [], filter};
ghost use Rattle.tw_rows.specs.Instant.{inf};
ghost use Rattle.tw_rows.specs.Bag.{SameBag};
ghost use Rattle.tw_rows.specs.Event.{Event, alive, AreEvents, Known};
ghost use Rattle.key_nodes.specs.Runs.{Tells};
ghost use Rattle.key_nodes.specs.Groups.{has_key, IsGroupRow, grouped_rows, grouped};

/// A function that makes a row of the rows of a key, in whatever order, and none of no rows, gives the row of a group.
pub fn rows_of_a_key_give_a_group_row<R, K, S>()
    ensures { (key : R → K) (same : K → K → Bool) (make : K → List R → Option S) →
        ((k : K) (xs ys : List R) → SameBag xs ys → make k xs ≡ make k ys) →
        ((k : K) → make k [] ≡ None) →
        IsGroupRow key same (λ k rows. make k (filter (has_key key same k) rows)) }
{}

/// Snapshots: at each instant the events of groups that are alive are the rows of the groups of what is alive, and
/// these do not depend on the order of the rows.
pub fn groups_have_the_rows<R, K, S>()
    ensures alive { (key : R → K) (same : K → K → Bool) (same_row : S → S → Bool)
        (tell : K → List R → Option S) →
        Tells same → Tells same_row → IsGroupRow key same tell →
        (events : List (Event R)) (t : ℕ) → t < inf →
        SameBag (alive (grouped key same same_row tell events) t)
        (grouped_rows key same tell (alive events t)) }
    ensures order { (key : R → K) (same : K → K → Bool) (tell : K → List R → Option S) →
        Tells same → IsGroupRow key same tell →
        (xs ys : List R) → SameBag xs ys →
        SameBag (grouped_rows key same tell xs) (grouped_rows key same tell ys) }
{}

/// Causality: what is known of the events of groups below `c` depends only on what is known of the events below `c`.
pub fn groups_are_causal<R, K, S>()
    ensures { (key : R → K) (same : K → K → Bool) (same_row : S → S → Bool)
        (tell : K → List R → Option S) →
        Tells same → IsGroupRow key same tell →
        (c : ℕ) (a b : List (Event R)) → Known c a b →
        Known c (grouped key same same_row tell a) (grouped key same same_row tell b) }
{}

/// The events of groups have lifetimes that begin before they end, and end at infinity at the latest.
pub fn groups_have_lives<R, K, S>()
    ensures { (key : R → K) (same : K → K → Bool) (same_row : S → S → Bool)
        (tell : K → List R → Option S) (events : List (Event R)) →
        AreEvents (grouped key same same_row tell events) }
{}
