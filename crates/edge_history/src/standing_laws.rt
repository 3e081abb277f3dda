// The laws of edges that stand for events below a time.
ghost use Rattle.std.specs.Prelude.{◌≡◌, ◌↔◌, ℕ, ◌<◌, ◌≤◌, List, filter};
ghost use Rattle.tw_rows.specs.Instant.{inf};
ghost use Rattle.tw_rows.specs.Bag.{SameBag};
ghost use Rattle.tw_rows.specs.Event.{alive, cut};
ghost use Rattle.tw_rows.specs.declared.edge.Edge.{Edge};
ghost use Rattle.edge_history.specs.Order.{Rises, failing, is_real, is_below, IsHistory};
ghost use Rattle.edge_history.specs.History.{CellEvent, of, StandsBelow};
ghost use Rattle.edge_history.specs.Balance.{AreEventsOf, StandsFor, is_single, Told};

/// A history stands for events by balance exactly where of its own events and of these the same is known. What is told
/// below a time stands below it.
pub fn forms_of_standing_agree()
    ensures plain { (c : ℕ) (h : List Edge) (events : List CellEvent) → IsHistory h →
        StandsFor c h events ↔ SameBag (cut c (of h)) (cut c events) }
    ensures balance { (c : ℕ) (h : List Edge) (own events : List CellEvent) → AreEventsOf h own →
        StandsFor c h events ↔ SameBag (cut c own) (cut c events) }
    ensures told { (c : ℕ) (h : List Edge) (events : List CellEvent) → c ≤ inf →
        Told c h events → StandsBelow c h events }
{}

/// The edges of a history below a time stand for its events below it. Those of a list in any order do so once they are
/// put in order.
pub fn edges_stand_for_their_own_events()
    ensures history { (c : ℕ) (h : List Edge) (own : List CellEvent) → c ≤ inf → IsHistory h →
        AreEventsOf h own → StandsBelow c (filter (is_below c) h) own }
    ensures any_order { (c : ℕ) (h sorted : List Edge) (own : List CellEvent) → c ≤ inf →
        failing is_real h ≡ 0 → AreEventsOf h own → Rises 0 sorted →
        SameBag sorted (filter (is_below c) h) → StandsBelow c sorted own }
{}

/// Where edges stand for events below a time, those below an earlier time stand for them below that. They are told so
/// where each tells of a start or of an end, and not of both.
pub fn standing_holds_below_earlier_times()
    ensures stands { (c d : ℕ) (h : List Edge) (events : List CellEvent) → c ≤ d → d ≤ inf →
        StandsBelow d h events → StandsBelow c (filter (is_below c) h) events }
    ensures balance { (c d : ℕ) (h : List Edge) (events : List CellEvent) → c ≤ d → d ≤ inf →
        failing is_real h ≡ 0 → StandsFor d h events → StandsFor c (filter (is_below c) h) events }
    ensures told { (c d : ℕ) (h : List Edge) (events : List CellEvent) → c ≤ d → d ≤ inf →
        failing is_single h ≡ 0 → Told d h events → Told c (filter (is_below c) h) events }
{}

/// Edges stand below a time for all events of which the same is known below it. Two lists that stand for the same
/// events stand for each other's.
pub fn standing_depends_on_known_events()
    ensures stands { (c : ℕ) (h : List Edge) (a b : List CellEvent) → SameBag (cut c a) (cut c b) →
        StandsBelow c h a → StandsBelow c h b }
    ensures told { (c : ℕ) (h : List Edge) (a b : List CellEvent) → SameBag (cut c a) (cut c b) →
        Told c h a → Told c h b }
    ensures known { (c : ℕ) (h other : List Edge) (events : List CellEvent) →
        StandsBelow c h events → StandsBelow c other events →
        SameBag (cut c (of h)) (cut c (of other)) }
    ensures each { (c : ℕ) (h other : List Edge) (events : List CellEvent) →
        StandsBelow c h events → StandsBelow c other events → StandsBelow c h (of other) }
{}

/// Where edges stand for events below a time, at each instant below it the same rows are alive.
pub fn standing_edges_have_the_rows()
    ensures { (c t : ℕ) (h : List Edge) (events : List CellEvent) → t < c → c ≤ inf →
        StandsBelow c h events → SameBag (alive (of h) t) (alive events t) }
{}
