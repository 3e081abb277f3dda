// The laws by which operators tell of their events, step by step.
ghost use Rattle.std.specs.Prelude.{◌≡◌, ℕ, ◌≤◌, List, [], ◌++◌};
ghost use Rattle.tw_rows.specs.Instant.{inf};
ghost use Rattle.tw_rows.specs.Bag.{SameBag};
ghost use Rattle.tw_rows.specs.Event.{AreEvents, Known};
ghost use Rattle.tw_rows.specs.declared.edge.Edge.{Edge};
ghost use Rattle.edge_history.specs.Order.{Rises, failing, is_real, is_below, is_from, IsHistory};
ghost use Rattle.edge_history.specs.History.{CellEvent, StandsBelow};
ghost use Rattle.edge_history.specs.Balance.{is_single, Told, news};

/// Below 0 nothing is known of events, and no edge tells all of it.
pub fn nothing_is_told_at_first()
    ensures told { (events : List CellEvent) → Told 0 [] events }
    ensures stands { (events : List CellEvent) → StandsBelow 0 [] events }
{}

/// What is told of events below c, followed by their news from c to d in order, tells of them below d.
pub fn news_is_told()
    ensures { (c d : ℕ) (told answer : List Edge) (events : List CellEvent) → c ≤ d → d ≤ inf →
        AreEvents events → Told c told events → Rises 0 answer → SameBag answer (news c d events) →
        Told d (told ++ answer) events }
{}

/// What is told is a history: that it stands for events makes it paired.
pub fn told_edges_are_a_history()
    ensures { (c : ℕ) (told : List Edge) (events : List CellEvent) → c ≤ inf → Told c told events →
        IsHistory told }
{}

/// News from c to d comes at c or later and below d; each of its edges is real, and tells of a start or of an end.
pub fn news_comes_between()
    ensures later { (c d : ℕ) (answer : List Edge) (events : List CellEvent) →
        SameBag answer (news c d events) → failing (is_from c) answer ≡ 0 }
    ensures below { (c d : ℕ) (answer : List Edge) (events : List CellEvent) →
        SameBag answer (news c d events) → failing (is_below d) answer ≡ 0 }
    ensures real { (c d : ℕ) (answer : List Edge) (events : List CellEvent) → d ≤ inf →
        AreEvents events → SameBag answer (news c d events) → failing is_real answer ≡ 0 }
    ensures single { (c d : ℕ) (answer : List Edge) (events : List CellEvent) → AreEvents events →
        SameBag answer (news c d events) → failing is_single answer ≡ 0 }
{}

/// News comes in parts: from c to t, and then from t to d.
pub fn news_comes_in_parts()
    ensures none { (c : ℕ) (events : List CellEvent) → news c c events ≡ [] }
    ensures parts { (c t d : ℕ) (events : List CellEvent) → c ≤ t → t ≤ d →
        SameBag (news c d events) (news c t events ++ news t d events) }
{}

/// News below d of events depends only on what is known of them below d.
pub fn known_events_have_the_same_news()
    ensures { (c d : ℕ) (a b : List CellEvent) → Known d a b → SameBag (news c d a) (news c d b) }
{}
