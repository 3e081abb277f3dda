// The laws of what an operator keeps of the edges of one side.
ghost use Rattle.std.specs.Prelude.{◌≡◌, ◌↔◌, ◌&&◌, Bool, IsTrue, ℕ, ◌≤◌, List, [], ◌++◌, filter};
ghost use Rattle.tw_rows.specs.Instant.{inf};
ghost use Rattle.tw_rows.specs.Bag.{SameBag};
ghost use Rattle.tw_rows.specs.declared.edge.Edge.{Edge};
ghost use Rattle.edge_history.specs.Order.{failing, is_from, IsHistory};
ghost use Rattle.edge_history.specs.History.{CellEvent, begun, end_all, of};
ghost use Rattle.edge_history.specs.Balance.{AreEventsOf};
ghost use Rattle.edge_history.specs.Side.{reaches, DependsOnNoEnd, Retains};

/// What is retained of edges are their events that do not end before the time.
pub fn retained_events_reach()
    ensures plain { (c : ℕ) (kept : List CellEvent) (h : List Edge) → c ≤ inf → IsHistory h →
        Retains c kept h ↔ SameBag kept (filter (reaches c) (of h)) }
    ensures balance { (c : ℕ) (kept : List CellEvent) (h : List Edge) (a : List CellEvent) →
        c ≤ inf → AreEventsOf h a → Retains c kept h ↔ SameBag kept (filter (reaches c) a) }
{}

/// Of no edges nothing is retained. As edges come at c or later, what is retained below c takes in the events that they
/// begin, and then their ends.
pub fn new_edges_are_retained()
    ensures first { (c : ℕ) → Retains c [] [] }
    ensures more { (c : ℕ) (kept : List CellEvent) (h new : List Edge) → c ≤ inf →
        Retains c kept h → IsHistory (h ++ new) → failing (is_from c) new ≡ 0 →
        Retains c (end_all new (kept ++ begun new)) (h ++ new) }
{}

/// New edges are taken in alike where just those events are kept that pass a test, if the test depends on no event's end
/// and passes each event that starts at c or later. The end of an event that was not kept then changes nothing.
pub fn new_edges_are_retained_under_a_test()
    ensures { (test : CellEvent → Bool) (c : ℕ) (kept : List CellEvent) (h new : List Edge)
        (a b : List CellEvent) → c ≤ inf → DependsOnNoEnd test →
        ((e : CellEvent) → c ≤ e.start → IsTrue (test e)) → IsHistory (h ++ new) →
        failing (is_from c) new ≡ 0 → AreEventsOf h a → AreEventsOf (h ++ new) b →
        SameBag kept (filter (λ e. reaches c e && test e) a) →
        SameBag (end_all new (kept ++ begun new)) (filter (λ e. reaches c e && test e) b) }
{}

/// For a later time the events that end before it may go.
pub fn retained_for_a_later_time()
    ensures { (c d : ℕ) (kept : List CellEvent) (h : List Edge) → c ≤ d → d ≤ inf →
        Retains c kept h → Retains d (filter (reaches d) kept) h }
{}

/// Edges begin and end events list after list.
pub fn lists_are_taken_in_turn()
    ensures ends { (h new : List Edge) (events : List CellEvent) →
        end_all (h ++ new) events ≡ end_all new (end_all h events) }
    ensures begins { (h new : List Edge) → begun (h ++ new) ≡ begun h ++ begun new }
{}
