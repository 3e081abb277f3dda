// The laws of answers that grow at their end, and of what they tell.
ghost use Rattle.std.specs.Prelude.{◌≡◌, ℕ, suc, ◌+◌, ◌*◌, ◌<◌, ◌≤◌, nat_eq, true, false, List, [], ◌∷◌, ◌++◌, length, get_or, take, map};
ghost use Rattle.tw_rows.specs.Bag.{SameBag, total};
ghost use Rattle.tw_rows.specs.Event.{AreEvents, Known};
ghost use Rattle.tw_rows.specs.Instant.{inf};
ghost use Rattle.tw_rows.specs.declared.edge.Edge.{Edge};
ghost use Rattle.tw_rows.specs.declared.edge.HeldRow.{HeldRow};
ghost use Rattle.edge_history.specs.Order.{failing, rank};
ghost use Rattle.edge_history.specs.History.{CellEvent};
ghost use Rattle.edge_history.specs.Balance.{news, Told};
ghost use Rattle.edge_history.specs.Opens.{opens, ended_of, started_of, ended_rows, started_rows, is_early};
ghost use Rattle.sweep_laws.specs.Sweeps.{InOrder, Tells};
ghost use Rattle.sweep_laws.specs.Moves.{Moves, Adds, told_at, HoldsEnded};

/// An answer in order stays in order where an edge of its greatest rank, or edges of that rank, come at its end.
pub fn answers_stay_in_order()
    ensures later { (r s : ℕ) (es : List Edge) → r ≤ s → InOrder r es → InOrder s es }
    ensures push { (r : ℕ) (es : List Edge) (e : Edge) → rank e ≡ r → InOrder r es →
        InOrder r (es ++ e ∷ []) }
    ensures more { (r : ℕ) (before after edges : List Edge) → Adds before after edges →
        failing (λ e. nat_eq (rank e) r) edges ≡ 0 → InOrder r before → InOrder r after }
{}

/// Edges are added in turn, in any order, and weigh what was added.
pub fn answers_grow()
    ensures none { (es : List Edge) → Adds es es [] }
    ensures then { (a b c first second : List Edge) → Adds a b first → Adds b c second →
        Adds a c (first ++ second) }
    ensures bag { (a b first second : List Edge) → Adds a b first → SameBag first second →
        Adds a b second }
    ensures weigh { (w : Edge → ℕ) (a b edges : List Edge) → Adds a b edges →
        total w b ≡ total w a + total w edges }
{}

/// Whatever leads from the rows that are open before an instant to those that are open after it tells its news. Where the
/// open rows stay from each instant to the next there are none.
pub fn moves_tell_the_news()
    ensures told { (t : ℕ) (events : List CellEvent) (open0 open1 : List HeldRow)
        (before after : List Edge) → AreEvents events → SameBag open0 (opens t events) →
        SameBag open1 (opens (suc t) events) → Moves t open0 open1 before after → (w : Edge → ℕ) →
        total w after ≡ total w before + total w (news t (suc t) events) }
    ensures still { (t u : ℕ) (events : List CellEvent) → t ≤ u → AreEvents events →
        ((v : ℕ) → t ≤ v → v < u → SameBag (opens (suc v) events) (opens v events)) →
        (w : Edge → ℕ) → total w (news t u events) ≡ 0 }
{}

/// What is told from one time to another is told in parts, and nothing is where there are no news. What was told of events
/// stays told where more of them is known, and goes on by an answer that tells their news.
pub fn news_are_told_in_parts()
    ensures parts { (events : List CellEvent) (from t to : ℕ) (x y z : List Edge) → from ≤ t →
        t ≤ to → Tells events from t x y → Tells events t to y z → Tells events from to x z }
    ensures still { (events : List CellEvent) (from to : ℕ) (x : List Edge) → from ≤ to →
        ((w : Edge → ℕ) → total w (news from to events) ≡ 0) → Tells events from to x x }
    ensures step { (c d : ℕ) (out answer0 answer : List Edge) (events later : List CellEvent) →
        c ≤ d → d ≤ inf → Known c events later → Told c out events → answer0 ≡ [] →
        Tells later c d answer0 answer → Told d (out ++ answer) later }
{}

/// The order of an answer stays where rows that began before an instant are told to end there, and then rows to start.
pub fn rows_are_told_in_order()
    ensures ends { (t : ℕ) (rows : List HeldRow) (before after : List Edge) →
        Adds before after (map (told_at false t) rows) → failing (is_early t) rows ≡ 0 →
        InOrder (2 * t) before → InOrder (2 * t) after }
    ensures starts { (t : ℕ) (rows : List HeldRow) (before after : List Edge) → t < inf →
        Adds before after (map (told_at true t) rows) → InOrder (suc (2 * t)) before →
        InOrder (suc (2 * t)) after }
{}

/// Rows that follow the edges of an instant one by one: each takes its row out, which is there where all that end were there
/// at first, or puts its row in. The ends of some rows are told row by row.
pub fn rows_follow_edge_by_edge()
    ensures moved { (now : List Edge) (i : ℕ) (x : Edge) (rows0 rows1 rows2 : List HeldRow) →
        i < length now → x ≡ get_or now i x → (HoldsEnded x rows1 → (w : HeldRow → ℕ) →
        total w rows2 + total w (ended_of x) ≡ total w rows1 + total w (started_of x)) →
        (((w : HeldRow → ℕ) → total w (ended_rows now) ≤ total w rows0) → (w : HeldRow → ℕ) →
        total w rows1 + total w (ended_rows (take i now)) ≡ total w rows0
        + total w (started_rows (take i now))) →
        ((w : HeldRow → ℕ) → total w (ended_rows now) ≤ total w rows0) → (w : HeldRow → ℕ) →
        total w rows2 + total w (ended_rows (take (i + 1) now)) ≡ total w rows0
        + total w (started_rows (take (i + 1) now)) }
    ensures held { (now : List Edge) (i : ℕ) (x : Edge) (rows0 rows1 : List HeldRow) →
        i < length now → x ≡ get_or now i x → ((w : HeldRow → ℕ) →
        total w (ended_rows now) ≤ total w rows0) →
        ((w : HeldRow → ℕ) → total w rows0 ≡ total w rows1 + total w (ended_rows (take i now))) →
        HoldsEnded x rows1 }
    ensures told { (t : ℕ) (r : HeldRow) (rows : List HeldRow) (i : ℕ)
        (answer0 answer1 answer2 : List Edge) → i < length rows → r ≡ get_or rows i r →
        answer2 ≡ answer1 ++ told_at false t r ∷ [] →
        Adds answer0 answer1 (map (told_at false t) (take i rows)) →
        Adds answer0 answer2 (map (told_at false t) (take (i + 1) rows)) }
{}
