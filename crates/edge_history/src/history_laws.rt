// The laws of lists of edges and their events.
ghost use Rattle.std.specs.Prelude.{◌≡◌, ◌↔◌, ℕ, ◌≤◌, Bool, List, ◌++◌, filter, IsTrue, All};
ghost use Rattle.std.specs.List.Sorted.{IsNonDecreasingBy};
ghost use Rattle.tw_rows.specs.Instant.{inf};
ghost use Rattle.tw_rows.specs.Bag.{SameBag};
ghost use Rattle.tw_rows.specs.Event.{AreEvents, cut};
ghost use Rattle.tw_rows.specs.declared.edge.Edge.{Edge};
ghost use Rattle.edge_history.specs.Order.{failing, rank, Rises, is_real, is_below, is_from, KeepsOrder, IsHistory};
ghost use Rattle.edge_history.specs.History.{CellEvent, begun, end_all, of};
ghost use Rattle.edge_history.specs.Balance.{AreEventsOf};

/// None of the items fails a test exactly where all pass it.
pub fn none_fails_where_all_pass()
    ensures { (test : Edge → Bool) (h : List Edge) →
        (failing test h ≡ 0) ↔ All (λ e. IsTrue (test e)) h }
{}

/// A list is in order exactly where no edge has a greater rank than a later one.
pub fn order_is_by_rank()
    ensures { (h : List Edge) → Rises 0 h ↔ IsNonDecreasingBy rank h }
{}

/// Edges keep the rule of a list exactly where they have the order and the times of a history. To be a history they
/// only need to be paired, too.
pub fn lists_are_ordered_as_histories()
    ensures { (es : List Edge) → KeepsOrder es ↔ (Rises 0 es × (failing is_real es ≡ 0)) }
{}

/// The events of a history are its events by balance, too.
pub fn histories_have_their_events()
    ensures { (h : List Edge) → IsHistory h → AreEventsOf h (of h) }
{}

/// A list of edges has one multiset of events by balance.
pub fn events_are_unique()
    ensures { (h : List Edge) (a b : List CellEvent) → AreEventsOf h a → AreEventsOf h b →
        SameBag a b }
{}

/// The events of a history have lifetimes that begin before they end.
pub fn events_have_lives()
    ensures plain { (h : List Edge) → IsHistory h → AreEvents (of h) }
    ensures balance { (h : List Edge) (a : List CellEvent) → IsHistory h → AreEventsOf h a →
        AreEvents a }
{}

/// The events of a longer history are those of its first edges and those that the new edges begin, once the new ends
/// have ended theirs.
pub fn more_edges_give_more_events()
    ensures balance { (h new : List Edge) (a : List CellEvent) →
        IsHistory (h ++ new) → AreEventsOf h a →
        AreEventsOf (h ++ new) (end_all new (a ++ begun new)) }
    ensures plain { (h new : List Edge) → IsHistory (h ++ new) →
        SameBag (of (h ++ new)) (end_all new (of h ++ begun new)) }
{}

/// Edges that come at a time or later change nothing of what is known below it.
pub fn later_edges_leave_what_is_known()
    ensures balance { (c : ℕ) (h new : List Edge) (a b : List CellEvent) → c ≤ inf →
        failing is_real new ≡ 0 → failing (is_from c) new ≡ 0 →
        AreEventsOf h a → AreEventsOf (h ++ new) b → SameBag (cut c a) (cut c b) }
    ensures plain { (c : ℕ) (h new : List Edge) → c ≤ inf →
        IsHistory (h ++ new) → failing (is_from c) new ≡ 0 →
        SameBag (cut c (of h)) (cut c (of (h ++ new))) }
{}

/// The first edges of a history are a history.
pub fn first_edges_are_a_history()
    ensures { (h new : List Edge) → IsHistory (h ++ new) → IsHistory h }
{}

/// The edges of a history below a time are its first edges and a history, of whose events the same is known below that
/// time.
pub fn edges_below_are_a_history()
    ensures first { (t : ℕ) (h : List Edge) → IsHistory h →
        h ≡ filter (is_below t) h ++ filter (is_from t) h }
    ensures history { (t : ℕ) (h : List Edge) → IsHistory h → IsHistory (filter (is_below t) h) }
    ensures known { (t : ℕ) (h : List Edge) → t ≤ inf → IsHistory h →
        SameBag (cut t (of (filter (is_below t) h))) (cut t (of h)) }
{}
