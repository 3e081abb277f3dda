// The laws of what is known of events, and of sums.
ghost use Rattle.std.specs.Prelude.{◌≡◌, ℕ, ◌+◌, ◌<◌, ◌≤◌, List, length, get_or, take, flat_map};
ghost use Rattle.tw_rows.specs.Instant.{inf};
ghost use Rattle.tw_rows.specs.Bag.{total};
ghost use Rattle.tw_rows.specs.Event.{Event, AreEvents, Known, seen};

/// Lists of which the same is known below a time are alike below each earlier one, and likeness passes on. It holds where
/// each weight finds the events, as they are seen, equally heavy.
pub fn known_events_are_alike<R>()
    ensures lower { (c d : ℕ) (a b : List (Event R)) → d ≤ c → Known c a b → Known d a b }
    ensures itself { (c : ℕ) (a : List (Event R)) → c ≤ inf → AreEvents a → Known c a a }
    ensures turned { (c : ℕ) (a b : List (Event R)) → Known c a b → Known c b a }
    ensures then { (c : ℕ) (a b d : List (Event R)) → Known c a b → Known c b d → Known c a d }
    ensures seen { (c : ℕ) (a b : List (Event R)) → c ≤ inf → AreEvents a → AreEvents b →
        ((w : Event R → ℕ) → total (seen w c) a ≡ total (seen w c) b) → Known c a b }
{}

/// A sum over the first items of a list grows by the next item, and is at most the whole.
pub fn totals_grow_item_by_item<X, Y>()
    ensures more { (w : X → ℕ) (xs : List X) (i : ℕ) (d : X) → i < length xs →
        total w (take (i + 1) xs) ≡ total w (take i xs) + w (get_or xs i d) }
    ensures part { (w : X → ℕ) (xs : List X) (i : ℕ) (d : X) → i < length xs →
        total w (take i xs) + w (get_or xs i d) ≤ total w xs }
    ensures flat { (w : Y → ℕ) (f : X → List Y) (xs : List X) (i : ℕ) (d : X) → i < length xs →
        total w (flat_map f (take (i + 1) xs)) ≡ total w (flat_map f (take i xs)) + total w
        (f (get_or xs i d)) }
{}
