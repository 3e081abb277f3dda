// The laws of coalesced events, of tops and of followed events.
ghost use Rattle.std.specs.Prelude.{◌≡◌, ◌↔◌, ℕ, ◌+◌, ◌<◌, ◌≤◌, min, ℤ, Bool, IsTrue, List, All};
ghost use Rattle.tw_rows.specs.Instant.{inf};
ghost use Rattle.tw_rows.specs.Bag.{SameBag};
ghost use Rattle.tw_rows.specs.Event.{Event, alive, AreEvents, Known};
ghost use Rattle.key_nodes.specs.Runs.{Tells};
ghost use Rattle.key_nodes.specs.Coalesced.{coalesced};
ghost use Rattle.key_nodes.specs.Tops.{top_rows, top};
ghost use Rattle.key_nodes.specs.Follows.{starts_next, followed};

/// Snapshots: at each instant the coalesced events that are alive are the rows of that instant, and the events depend
/// on those rows alone, in whatever order.
pub fn coalesced_events_have_the_rows<R>()
    ensures alive { (same : R → R → Bool) (rows : ℕ → List R) (t : ℕ) → Tells same → t < inf →
        SameBag (alive (coalesced same rows) t) (rows t) }
    ensures order { (same : R → R → Bool) (rows rows2 : ℕ → List R) → Tells same →
        ((t : ℕ) → t < inf → SameBag (rows t) (rows2 t)) →
        SameBag (coalesced same rows) (coalesced same rows2) }
{}

/// Causality: what is known of coalesced events below `c` depends only on the rows of the instants below `c`, and so
/// only on what is known below `c` of the events that have those rows.
pub fn coalesced_events_are_causal<R>()
    ensures rows { (same : R → R → Bool) (rows rows2 : ℕ → List R) (c : ℕ) → Tells same → c ≤ inf →
        ((t : ℕ) → t < c → SameBag (rows t) (rows2 t)) →
        Known c (coalesced same rows) (coalesced same rows2) }
    ensures events { (same : R → R → Bool) (c : ℕ) (a b : List (Event R)) → Tells same →
        Known c a b → Known c (coalesced same (alive a)) (coalesced same (alive b)) }
{}

/// Coalesced events have lifetimes that begin before they end, and end at infinity at the latest.
pub fn coalesced_events_have_lives<R>()
    ensures { (same : R → R → Bool) (rows : ℕ → List R) → Tells same →
        AreEvents (coalesced same rows) }
{}

/// Snapshots: at each instant the events of a top that are alive are the greatest rows of each key among those that
/// are alive, and these do not depend on the order of the rows.
pub fn tops_have_the_rows<R>()
    ensures alive { (same : R → R → Bool) (meets : R → R → Bool) (value : R → ℤ) (count : ℕ)
        (events : List (Event R)) (t : ℕ) → Tells same → t < inf →
        SameBag (alive (top same meets value count events) t)
        (top_rows meets value count (alive events t)) }
    ensures order { (meets : R → R → Bool) (value : R → ℤ) (count : ℕ) (xs ys : List R) →
        SameBag xs ys → SameBag (top_rows meets value count xs) (top_rows meets value count ys) }
{}

/// Causality: what is known of the events of a top below `c` depends only on what is known of the events below `c`.
pub fn tops_are_causal<R>()
    ensures { (same : R → R → Bool) (meets : R → R → Bool) (value : R → ℤ) (count : ℕ) (c : ℕ)
        (a b : List (Event R)) → Tells same → Known c a b →
        Known c (top same meets value count a) (top same meets value count b) }
{}

/// A right event starts next after a left one exactly where the two meet, it starts strictly after the left one and
/// before the time within which it may is over, and no right event that the left one meets starts between the two.
pub fn followed_events_are_next<L, R>()
    ensures { (meets : L → R → Bool) (within : ℕ) (right : List (Event R)) (a : Event L)
        (b : Event R) → IsTrue (starts_next meets within right a b) ↔
        (IsTrue (meets a.row b.row) × (a.start < b.start) × (b.start < a.start + within)
        × All (λ c. IsTrue (meets a.row c.row) → a.start < c.start → b.start ≤ c.start) right) }
{}

/// Causality: what is known of followed events below the lesser of `x` and `y` depends only on what is known of the
/// left events below `x` and of the right events below `y`.
pub fn followed_events_are_causal<L, R, P>()
    ensures { (meets : L → R → Bool) (pair : L → R → P) (within : ℕ) →
        (x y : ℕ) (a c : List (Event L)) (b d : List (Event R)) → Known x a c → Known y b d →
        Known (min x y) (followed meets pair within a b) (followed meets pair within c d) }
{}

/// Followed events have lifetimes that begin before they end, and end at infinity at the latest.
pub fn followed_events_have_lives<L, R, P>()
    ensures { (meets : L → R → Bool) (pair : L → R → P) (within : ℕ)
        (left : List (Event L)) (right : List (Event R)) → AreEvents right →
        AreEvents (followed meets pair within left right) }
{}
