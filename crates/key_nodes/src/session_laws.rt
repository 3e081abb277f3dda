// The laws of sessions and of clipped events.
ghost use Rattle.std.specs.Prelude.{◌↔◌, ◌⊎◌, ℕ, ◌+◌, ◌<◌, ◌≤◌, min, Bool, IsTrue, List, All};
ghost use Rattle.tw_rows.specs.Instant.{inf, later};
ghost use Rattle.tw_rows.specs.Event.{Event, AreEvents, Known};
ghost use Rattle.key_nodes.specs.Sessions.{session_end, sessions};
ghost use Rattle.key_nodes.specs.Clips.{clip, clipped};

/// A session ends at the least time that is the timeout later than a start, not below `from`, with no start strictly
/// between: `t` is at most its end exactly where it is at most infinity and at most each of these times.
pub fn sessions_end_at_the_least()
    ensures { (timeout from t : ℕ) (starts : List ℕ) →
        (t ≤ session_end timeout starts from) ↔
        ((t ≤ inf) × All (λ s. from ≤ s → All (λ u. (u ≤ s) ⊎ (s + timeout ≤ u)) starts →
        t ≤ later timeout s) starts) }
{}

/// A clipped event ends at the least of its end and of the starts, strictly after its own, of the right events that it
/// meets: `t` is at most this end exactly where it is at most each of them.
pub fn clips_end_at_the_least<L, R>()
    ensures { (meets : L → R → Bool) (right : List (Event R)) (e : Event L) (t : ℕ) →
        (t ≤ (clip meets right e).end) ↔ ((t ≤ e.end)
        × All (λ r. IsTrue (meets e.row r.row) → e.start < r.start → t ≤ r.start) right) }
{}

/// Causality: what is known of sessions below `c` depends only on what is known of the events below `c`.
pub fn sessions_are_causal<R, K>()
    ensures { (key : R → K) (same : K → K → Bool) (timeout : ℕ) → 1 ≤ timeout →
        (c : ℕ) (a b : List (Event R)) → Known c a b →
        Known c (sessions key same timeout a) (sessions key same timeout b) }
{}

/// Sessions have lifetimes that begin before they end, and end at infinity at the latest, where the timeout is at least 1.
pub fn sessions_have_lives<R, K>()
    ensures { (key : R → K) (same : K → K → Bool) (timeout : ℕ) → 1 ≤ timeout →
        (events : List (Event R)) → AreEvents events →
        AreEvents (sessions key same timeout events) }
{}

/// Causality: what is known of clipped events below the lesser of `x` and `y` depends only on what is known of the left
/// events below `x` and of the right events below `y`.
pub fn clips_are_causal<L, R>()
    ensures { (meets : L → R → Bool) →
        (x y : ℕ) (a c : List (Event L)) (b d : List (Event R)) → Known x a c → Known y b d →
        Known (min x y) (clipped meets a b) (clipped meets c d) }
{}

/// Clipped events have lifetimes that begin before they end, and end at infinity at the latest.
pub fn clips_have_lives<L, R>()
    ensures { (meets : L → R → Bool) (left : List (Event L)) (right : List (Event R)) →
        AreEvents left → AreEvents (clipped meets left right) }
{}
