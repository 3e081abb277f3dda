// The laws of the rows that are open at a time, and of the edges that change them.
ghost use Rattle.std.specs.Prelude.{◌≡◌, ℕ, suc, ◌+◌, ◌*◌, ◌≤◌, ◌&&◌, cond, List, ◌++◌, filter, length};
ghost use Rattle.tw_rows.specs.Instant.{inf};
ghost use Rattle.tw_rows.specs.Bag.{SameBag, total};
ghost use Rattle.tw_rows.specs.Event.{alive, AreEvents, cut, Known};
ghost use Rattle.tw_rows.specs.declared.edge.Edge.{Edge};
ghost use Rattle.tw_rows.specs.declared.edge.HeldRow.{HeldRow};
ghost use Rattle.edge_history.specs.Order.{failing, many, is_real, is_below, is_from, Rises, IsHistory};
ghost use Rattle.edge_history.specs.History.{CellEvent, of, StandsBelow};
ghost use Rattle.edge_history.specs.Balance.{AreEventsOf, news};
ghost use Rattle.edge_history.specs.Side.{reaches};
ghost use Rattle.edge_history.specs.Ahead.{ToldAhead};
ghost use Rattle.edge_history.specs.Opens.{singles, is_start, opens, ended_rows, started_rows, bare, is_early, is_new};

/// The single edges of a list are the news of its events, and the news between two times are those of them that lie there.
pub fn single_edges_are_news()
    ensures news { (h : List Edge) (events : List CellEvent) → failing is_real h ≡ 0 →
        AreEventsOf h events → SameBag (singles h) (news 0 inf events) }
    ensures between { (w : Edge → ℕ) (c d : ℕ) (events : List CellEvent) → d ≤ inf →
        total (λ x. cond (is_from c x && is_below d x) (w x) 0) (news 0 inf events)
        ≡ total w (news c d events) }
{}

/// From one time to a later one, ends take rows out and starts put rows in. What is alive at an instant is open just after
/// it. Rows that are open at a time began before it, and depend on what is known below it alone. They stay where there are
/// no news.
pub fn open_rows_follow_news()
    ensures step { (w : HeldRow → ℕ) (t u : ℕ) (events : List CellEvent) → t ≤ u →
        AreEvents events → total w (opens u events) + total w (ended_rows (news t u events))
        ≡ total w (opens t events) + total w (started_rows (news t u events)) }
    ensures alive { (t : ℕ) (events : List CellEvent) →
        SameBag (alive events t) (bare (opens (suc t) events)) }
    ensures early { (t : ℕ) (events : List CellEvent) → failing (is_early t) (opens t events) ≡ 0 }
    ensures known { (c : ℕ) (a b : List CellEvent) → Known c a b → SameBag (opens c a) (opens c b) }
    ensures stay { (t u : ℕ) (events : List CellEvent) → t ≤ u → AreEvents events →
        ((w : Edge → ℕ) → total w (news t u events) ≡ 0) →
        SameBag (opens u events) (opens t events) }
{}

/// The edges of one instant: what they end is open, what they start begins then, and kept rows that follow them are open
/// after it.
pub fn edges_of_an_instant_change_the_open_rows()
    ensures there { (events : List CellEvent) (t : ℕ) (now : List Edge) (rows : List HeldRow) →
        AreEvents events → SameBag now (news t (suc t) events) → SameBag rows (opens t events) →
        (w : HeldRow → ℕ) → total w (ended_rows now) ≤ total w rows }
    ensures new { (events : List CellEvent) (t : ℕ) (now : List Edge) →
        SameBag now (news t (suc t) events) → failing (is_new t) (started_rows now) ≡ 0 }
    ensures after { (events : List CellEvent) (t : ℕ) (now : List Edge)
        (rows later : List HeldRow) → AreEvents events → SameBag now (news t (suc t) events) →
        SameBag rows (opens t events) → ((w : HeldRow → ℕ) →
        total w later + total w (ended_rows now) ≡ total w rows + total w (started_rows now)) →
        SameBag later (opens (suc t) events) }
{}

/// Single edges wait until they are due. Those that lie below a time are the news of all events up to it, and the rest wait
/// on: where `waiting` holds the single edges of what came before from c on, and all of these and of the new edges, which
/// come from c on, are parted into the due ones below d and the rest from d on.
pub fn waiting_edges_become_due()
    ensures due { (came new waiting due rest : List Edge) (c d : ℕ) → c ≤ d → d ≤ inf →
        IsHistory (came ++ new) → failing (is_from c) new ≡ 0 →
        SameBag waiting (filter (is_from c) (singles came)) →
        ((w : Edge → ℕ) → total w due + total w rest ≡ total w waiting + total w (singles new)) →
        failing (is_below d) due ≡ 0 → failing (is_from d) rest ≡ 0 →
        SameBag due (news c d (of (came ++ new))) }
    ensures rest { (came new waiting due rest : List Edge) (c d : ℕ) → c ≤ d → d ≤ inf →
        IsHistory (came ++ new) → failing (is_from c) new ≡ 0 →
        SameBag waiting (filter (is_from c) (singles came)) →
        ((w : Edge → ℕ) → total w due + total w rest ≡ total w waiting + total w (singles new)) →
        failing (is_below d) due ≡ 0 → failing (is_from d) rest ≡ 0 →
        SameBag rest (filter (is_from d) (singles (came ++ new))) }
{}

/// The same where starts alone wait, as on a side of which no end is asked.
pub fn waiting_starts_become_due()
    ensures due { (came new waiting due rest : List Edge) (c d : ℕ) → c ≤ d → d ≤ inf →
        IsHistory (came ++ new) → failing (is_from c) new ≡ 0 →
        SameBag waiting (filter is_start (filter (is_from c) (singles came))) →
        ((w : Edge → ℕ) → total w due + total w rest ≡ total w waiting
        + total w (filter is_start (singles new))) → failing (is_below d) due ≡ 0 →
        failing (is_from d) rest ≡ 0 → SameBag due (filter is_start (news c d (of (came ++ new)))) }
    ensures rest { (came new waiting due rest : List Edge) (c d : ℕ) → c ≤ d → d ≤ inf →
        IsHistory (came ++ new) → failing (is_from c) new ≡ 0 →
        SameBag waiting (filter is_start (filter (is_from c) (singles came))) →
        ((w : Edge → ℕ) → total w due + total w rest ≡ total w waiting
        + total w (filter is_start (singles new))) → failing (is_below d) due ≡ 0 →
        failing (is_from d) rest ≡ 0 → SameBag rest
        (filter is_start (filter (is_from d) (singles (came ++ new)))) }
{}

/// The rows that are open at a time and the single edges that wait from it on are at most two for each event that does not
/// end before it.
pub fn kept_rows_are_bounded()
    ensures { (h : List Edge) (rows : List HeldRow) (waiting : List Edge) (to : ℕ) → IsHistory h →
        SameBag rows (opens to (of h)) → SameBag waiting (filter (is_from to) (singles h)) →
        length rows + length waiting ≤ 2 * many (reaches to) (of h) }
{}

/// An operator may tell an end ahead, by an interval edge with the end that it knows. What is told so is a history and stands
/// for its events below the time, and goes on with an answer whose single edges below a later time, together with the ends
/// told ahead that come due by then, are the news, and whose ends told ahead are ends of the events.
pub fn ends_may_be_told_ahead()
    ensures history { (c : ℕ) (h : List Edge) (events : List CellEvent) → c ≤ inf →
        AreEvents events → ToldAhead c h events → IsHistory h }
    ensures stands { (c : ℕ) (h : List Edge) (events : List CellEvent) → c ≤ inf →
        AreEvents events → ToldAhead c h events → StandsBelow c h events }
    ensures more { (c d : ℕ) (out answer : List Edge) (events : List CellEvent) → c ≤ d → d ≤ inf →
        ToldAhead c out events → Rises 0 answer → failing is_real answer ≡ 0 →
        failing (is_from c) answer ≡ 0 → failing (is_below d) answer ≡ 0 →
        ((w : Edge → ℕ) → total w (filter (is_below d) (singles answer)) + total w
        (filter (is_below d) (filter (is_from c) (singles out))) ≡ total w (news c d events)) →
        ((w : Edge → ℕ) → total w (filter (is_from d) (singles answer)) + total w
        (filter (is_from d) (filter (is_from c) (singles out))) ≤ total w (news d inf events)) →
        ToldAhead d (out ++ answer) events }
    ensures known { (c : ℕ) (a b : List CellEvent) → c ≤ inf → AreEvents a → AreEvents b →
        SameBag (news 0 c a) (news 0 c b) → SameBag (cut c a) (cut c b) }
{}
