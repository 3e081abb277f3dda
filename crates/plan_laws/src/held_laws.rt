// The laws of what nodes may keep.
ghost use Rattle.std.specs.Prelude.{◌≡◌, ℕ, ◌+◌, ◌≤◌, List, ◌++◌, length};
ghost use Rattle.tw_rows.specs.Bag.{SameBag};
ghost use Rattle.tw_rows.specs.Event.{Event, alive};
ghost use Rattle.plan_laws.specs.Held.{reaching};

/// The events that do not end before a time: all of them for 0, no more for a later time, and at least those that are
/// alive at the time. Their number depends on the multiset of the events alone, and that of two lists is the sum.
pub fn reaching_counts<R>()
    ensures all { (es : List (Event R)) → reaching 0 es ≡ length es }
    ensures later { (m n : ℕ) (es : List (Event R)) → m ≤ n → reaching n es ≤ reaching m es }
    ensures alive { (t : ℕ) (es : List (Event R)) → length (alive es t) ≤ reaching t es }
    ensures order { (m : ℕ) (a b : List (Event R)) → SameBag a b → reaching m a ≡ reaching m b }
    ensures both { (m : ℕ) (a b : List (Event R)) →
        reaching m (a ++ b) ≡ reaching m a + reaching m b }
{}
