// The laws of lists of edges that are cut at one instant.
ghost use Rattle.std.specs.Prelude.{◌≡◌, ℕ, suc, ◌+◌, ◌<◌, ◌≤◌, List, ◌++◌, take, drop};
ghost use Rattle.tw_rows.specs.Bag.{SameBag, total};
ghost use Rattle.tw_rows.specs.declared.edge.Edge.{Edge};
ghost use Rattle.edge_history.specs.Order.{failing, is_from, Rises};
ghost use Rattle.edge_history.specs.History.{CellEvent};
ghost use Rattle.edge_history.specs.Balance.{news};
ghost use Rattle.sweep_laws.specs.Sweeps.{is_at, IsPast, SyncsRise, IsDue, HeadFrom, IsNext};

/// Where the news of events are a list whose first edges are those of one instant and whose others come later, the first
/// are the news of that instant, there are none before it, and the others are the news after it.
pub fn edges_of_one_instant_come_first()
    ensures now { (events : List CellEvent) (from t to : ℕ) (now rest : List Edge) → from ≤ t →
        t < to → failing (is_at t) now ≡ 0 → failing (is_from (suc t)) rest ≡ 0 →
        SameBag (now ++ rest) (news from to events) → SameBag now (news t (suc t) events) }
    ensures before { (events : List CellEvent) (from t to : ℕ) (now rest : List Edge) → from ≤ t →
        t < to → failing (is_at t) now ≡ 0 → failing (is_from (suc t)) rest ≡ 0 →
        SameBag (now ++ rest) (news from to events) → (w : Edge → ℕ) →
        total w (news from t events) ≡ 0 }
    ensures rest { (events : List CellEvent) (from t to : ℕ) (now rest : List Edge) → from ≤ t →
        t < to → failing (is_at t) now ≡ 0 → failing (is_from (suc t)) rest ≡ 0 →
        SameBag (now ++ rest) (news from to events) → SameBag rest (news (suc t) to events) }
    ensures order { (es : List Edge) → Rises 0 es → SyncsRise 0 es }
{}

/// Two sides go on to the next instant: it lies where edges are due, at least one side has an edge of it, and what each side
/// has of it and what is left are as for one list, also where a side has none.
pub fn sides_go_on_to_the_next_instant()
    ensures between { (a b : List CellEvent) (from t to : ℕ) (left right : List Edge) →
        IsDue a from to left → IsDue b from to right → IsNext t left right → (from ≤ t) × (t < to) }
    ensures some { (t n m : ℕ) (left right : List Edge) → IsNext t left right →
        IsPast t (drop n left) → IsPast t (drop m right) → 1 ≤ n + m }
    ensures now { (events : List CellEvent) (from t to n : ℕ) (rest : List Edge) →
        IsDue events from to rest → from ≤ t → t < to → HeadFrom t rest →
        failing (is_at t) (take n rest) ≡ 0 → IsPast t (drop n rest) →
        SameBag (take n rest) (news t (suc t) events) }
    ensures before { (events : List CellEvent) (from t to n : ℕ) (rest : List Edge) →
        IsDue events from to rest → from ≤ t → t < to → HeadFrom t rest →
        failing (is_at t) (take n rest) ≡ 0 → IsPast t (drop n rest) → (w : Edge → ℕ) →
        total w (news from t events) ≡ 0 }
    ensures rest { (events : List CellEvent) (from t to n : ℕ) (rest : List Edge) →
        IsDue events from to rest → from ≤ t → t < to → HeadFrom t rest →
        failing (is_at t) (take n rest) ≡ 0 → IsPast t (drop n rest) →
        IsDue events (suc t) to (drop n rest) }
{}
