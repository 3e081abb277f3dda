// The laws of one instant of sessions, clips and anti-joins.
ghost use Rattle.std.specs.Prelude.{◌≡◌, ℕ, suc, ◌+◌, ◌<◌, ◌≤◌, ◌&&◌, ◌||◌, nat_eq, nat_le, Bool};
ghost use Rattle.std.specs.Prelude.{true, false, not, cond, Option, Some, List, length, get_or};
ghost use Rattle.std.specs.Prelude.{take, map, filter, flat_map};
ghost use Rattle.std.specs.List.{list_any};
ghost use Rattle.tw_rows.specs.Instant.{inf};
ghost use Rattle.tw_rows.specs.Bag.{SameBag, total};
ghost use Rattle.tw_rows.specs.Event.{AreEvents};
ghost use Rattle.tw_rows.specs.SameCells.{same_cells};
ghost use Rattle.tw_rows.specs.declared.cells.Datum.{Datum};
ghost use Rattle.tw_rows.specs.declared.edge.Edge.{Edge};
ghost use Rattle.tw_rows.specs.declared.edge.HeldRow.{HeldRow};
ghost use Rattle.edge_history.specs.Order.{failing, many, is_end};
ghost use Rattle.edge_history.specs.History.{CellEvent};
ghost use Rattle.edge_history.specs.Balance.{news};
ghost use Rattle.edge_history.specs.Opens.{is_start, opens, ended_rows, started_rows, bare, is_held};
ghost use Rattle.key_nodes.specs.Runs.{Tells};
ghost use Rattle.key_nodes.specs.Sessions.{least, session_end, key_starts, sessions};
ghost use Rattle.key_nodes.specs.Clips.{later_starts, clipped};
ghost use Rattle.key_nodes.specs.Antis.{alone_at, alone, meets_none};
ghost use Rattle.sweep_laws.specs.Meeting.{RowTest};
ghost use Rattle.sweep_laws.specs.Sweeps.{Tells as TellsNews};
ghost use Rattle.sweep_laws.specs.Moves.{Adds, told_at};
ghost use Rattle.sweep_laws.specs.Running.{open_at};
ghost use Rattle.sweep_laws.specs.Sessioning.{is_gap, IsLast, Sessioning, kept_last, has_row_of};
ghost use Rattle.sweep_laws.specs.Unending.{unending};
ghost use Rattle.sweep_laws.specs.Clipping.{starts_at, is_clipped};
ghost use Rattle.sweep_laws.specs.Antijoining.{is_free, judged, IsSince, Judging, run_of, end_of, stays_of, flip_of, flip_end, flip_start, begin_of};

/// A session that is open at an instant stays open unless the timeout passes there since a start of its key with no start in
/// between, which is so for all rows of the key or for none; and it is told by the last start before the instant alone.
pub fn sessions_end_at_a_gap()
    ensures step { (timeout from t : ℕ) (starts : List ℕ) → t < inf → from < t →
        list_any (nat_eq from) starts ≡ true → nat_le (suc t) (session_end timeout starts from)
        ≡ (nat_le t (session_end timeout starts from) && not (is_gap timeout starts t)) }
    ensures last { (timeout t last : ℕ) (starts : List ℕ) → 1 ≤ timeout → IsLast starts t last →
        is_gap timeout starts t ≡ nat_eq (last + timeout) t }
{}

/// The sessions that are open after an instant are those whose key has no gap there, and those that start. Where the kept
/// rows follow them, and the ends of the first and then the starts are told, all is told. Between instants with starts and
/// gaps nothing is.
pub fn sessions_tell_an_instant<K>()
    ensures step { (key : List Datum → K) (same : K → K → Bool) → Tells same →
        (timeout t : ℕ) (a : List CellEvent) (w : HeldRow → ℕ) → 1 ≤ timeout → t < inf →
        AreEvents a → total w (opens (suc t) (sessions key same timeout a)) ≡ total
        (λ r. cond (is_gap timeout (key_starts key same a (key r.cells)) t) 0 (w r))
        (opens t (sessions key same timeout a)) + total w (started_rows (news t (suc t) a)) }
    ensures told { (key : List Datum → K) (same : K → K → Bool) → Tells same →
        (timeout t : ℕ) (a : List CellEvent) (now : List Edge)
        (rows stay later ended : List HeldRow) (answer0 answer1 answer2 : List Edge) → 1 ≤ timeout →
        t < inf → AreEvents a → SameBag now (news t (suc t) a) →
        SameBag rows (opens t (sessions key same timeout a)) →
        ((w : HeldRow → ℕ) → total w rows ≡ total w stay + total w ended) →
        ((w : HeldRow → ℕ) → total w ended ≡ total
        (λ r. cond (is_gap timeout (key_starts key same a (key r.cells)) t) (w r) 0) rows) →
        ((w : HeldRow → ℕ) → total w later ≡ total w stay + total w (started_rows now)) →
        Adds answer0 answer1 (map (told_at false t) ended) →
        Adds answer1 answer2 (map (told_at true t) (started_rows now)) →
        SameBag later (opens (suc t) (sessions key same timeout a))
        × ((w : Edge → ℕ) → total w answer2 ≡ total w answer0 + total w
        (news t (suc t) (sessions key same timeout a))) }
    ensures between { (key : List Datum → K) (same : K → K → Bool) → Tells same →
        (timeout u t : ℕ) (a : List CellEvent) (rows : List HeldRow) → 1 ≤ timeout → u ≤ t →
        t ≤ inf → AreEvents a → ((w : Edge → ℕ) → total w (news u t a) ≡ 0) →
        SameBag rows (opens u (sessions key same timeout a)) →
        ((v : ℕ) → u ≤ v → v < t → failing (λ r.
        not (is_gap timeout (key_starts key same a (key r.cells)) v)) rows ≡ 0) →
        SameBag rows (opens t (sessions key same timeout a))
        × ((w : Edge → ℕ) → total w (news u t (sessions key same timeout a)) ≡ 0) }
{}

/// The last starts of the keys of open sessions follow an instant: a key at which a row starts has it as its last start, and
/// any other keeps its own unless its timeout passes there. With them, between instants without news, no session ends before
/// the least time at which a last start's timeout passes.
pub fn open_sessions_follow<K>()
    ensures instant { (key : List Datum → K) (same : K → K → Bool) → Tells same →
        (timeout t : ℕ) (a : List CellEvent) (now : List Edge)
        (rows stay later ended : List HeldRow) (last last2 : K → Option ℕ) → 1 ≤ timeout → t < inf →
        AreEvents a → SameBag now (news t (suc t) a) → Sessioning key same timeout a t rows last →
        ((w : HeldRow → ℕ) → total w rows ≡ total w stay + total w ended) →
        ((w : HeldRow → ℕ) → total w ended ≡ total
        (λ r. cond (is_gap timeout (key_starts key same a (key r.cells)) t) (w r) 0) rows) →
        ((w : HeldRow → ℕ) → total w later ≡ total w stay + total w (started_rows now)) →
        ((k : K) → last2 k ≡ cond (has_row_of key same (started_rows now) k) (Some t)
        (kept_last timeout t (last k))) → SameBag later
        (opens (suc t) (sessions key same timeout a)) →
        Sessioning key same timeout a (suc t) later last2 }
    ensures between { (key : List Datum → K) (same : K → K → Bool) → Tells same →
        (timeout u t : ℕ) (a : List CellEvent) (rows : List HeldRow) (last : K → Option ℕ) →
        1 ≤ timeout → u ≤ t → t ≤ inf → AreEvents a → ((w : Edge → ℕ) → total w (news u t a) ≡ 0) →
        Sessioning key same timeout a u rows last →
        ((k : K) (s : ℕ) → last k ≡ Some s → t ≤ s + timeout) →
        Sessioning key same timeout a t rows last
        × ((w : Edge → ℕ) → total w (news u t (sessions key same timeout a)) ≡ 0) }
{}

/// A clipped event that is open at an instant stays open unless it ends there or a right event that it meets starts there.
/// What is open of clipped events are the open left rows that no right start has clipped, and one instant takes out the rows
/// that a right start meets, then each end that is not clipped, and puts the starts in.
pub fn clips_tell_an_instant()
    ensures step { (meets : RowTest) (right : List CellEvent) (e : CellEvent) (t : ℕ) →
        e.start < t → nat_le (suc t) (least e.end (later_starts meets right e))
        ≡ (nat_le t (least e.end (later_starts meets right e)) && not
        (nat_eq e.end t || starts_at meets right e.row t)) }
    ensures opens { (meets : RowTest) (w : HeldRow → ℕ) (t : ℕ) (a b : List CellEvent) →
        total w (opens t (clipped meets a b)) ≡ total
        (λ r. cond (is_clipped meets b t r) 0 (w r)) (opens t a) }
    ensures instant { (meets : RowTest) (w : HeldRow → ℕ) (t : ℕ) (a b : List CellEvent) →
        AreEvents a → total w (opens (suc t) (clipped meets a b)) + total
        (λ r. cond (is_clipped meets b (suc t) r) 0 (w r)) (ended_rows (news t (suc t) a)) ≡ total
        (λ r. cond (starts_at meets b r.cells t) 0 (w r)) (opens t (clipped meets a b)) + total w
        (started_rows (news t (suc t) a)) }
{}

/// What an instant tells of an anti-join: for each left row that ends, the end of its run; for each that stays, its run's end
/// where its key is free no more and a start where it is free again; for each that starts, a start where its key is free. The
/// run of a left event then goes on by its key's status, judged after all edges of the instant. The rows that stay are those
/// that are left once the ends left.
pub fn antis_tell_an_instant<K>()
    ensures run { (meets : RowTest) (b : List CellEvent) (e : CellEvent) (t : ℕ) (st : Option ℕ) →
        t < inf → IsSince t st → open_at (alone_at meets b e) t ≡ run_of st t e →
        open_at (alone_at meets b e) (suc t) ≡ run_of (judged (is_free meets b t e.row) t st)
        (suc t) e }
    ensures stay { (t : ℕ) (a : List CellEvent) (rows stay : List HeldRow) (now : List Edge) →
        AreEvents a → SameBag now (news t (suc t) a) → SameBag rows (opens t a) →
        ((w : HeldRow → ℕ) → total w rows ≡ total w stay + total w (ended_rows now)) →
        SameBag stay (flat_map (stays_of t) a) }
    ensures told { (key : List Datum → K) (meets : RowTest) (a b : List CellEvent) (t : ℕ)
        (status : K → Option ℕ) (free : K → Bool) → t < inf → AreEvents a →
        ((k : K) → IsSince t (status k)) → ((e : CellEvent) →
        is_free meets b t e.row ≡ free (key e.row)) →
        ((e : CellEvent) → open_at (alone_at meets b e) t ≡ run_of (status (key e.row)) t e) →
        (w : Edge → ℕ) → total w (news t (suc t) (alone same_cells meets a b)) ≡ total
        (λ r. total w (end_of (status (key r.cells)) t r)) (ended_rows (news t (suc t) a)) + total
        (λ r. total w (flip_of (free (key r.cells)) (status (key r.cells)) t r))
        (flat_map (stays_of t) a) + total (λ r. total w (begin_of (free (key r.cells)) t r))
        (started_rows (news t (suc t) a)) }
{}

/// One instant of a clip with its kept rows. The rows that a right start meets are taken out and their ends told; then each
/// left end takes out its row and is told, if the row is there, which is so exactly where it is not clipped; then the starts
/// are put in and told. Between instants at which a side has news the rows stay, and nothing is told.
pub fn a_clip_tells_an_instant()
    ensures told { (meets : RowTest) (t : ℕ) (a b : List CellEvent)
        (rows stay gone : List HeldRow) → SameBag rows (opens t (clipped meets a b)) →
        ((w : HeldRow → ℕ) → total w rows ≡ total w stay + total w gone) →
        ((w : HeldRow → ℕ) → total w gone ≡ total
        (λ r. cond (starts_at meets b r.cells t) (w r) 0) rows) →
        (now : List Edge) (rest later ended : List HeldRow)
        (answer0 answer1 answer2 answer3 : List Edge) → t < inf → AreEvents a →
        SameBag now (news t (suc t) a) → ((w : HeldRow → ℕ) →
        total w stay ≡ total w rest + total w ended) →
        ((w : HeldRow → ℕ) → total w ended ≡ total
        (λ r. cond (is_clipped meets b (suc t) r) 0 (w r)) (ended_rows now)) →
        ((w : HeldRow → ℕ) → total w later ≡ total w rest + total w (started_rows now)) →
        Adds answer0 answer1 (map (told_at false t) gone) →
        Adds answer1 answer2 (map (told_at false t) ended) →
        Adds answer2 answer3 (map (told_at true t) (started_rows now)) →
        SameBag later (opens (suc t) (clipped meets a b))
        × TellsNews (clipped meets a b) t (suc t) answer0 answer3 }
    ensures clipped { (meets : RowTest) (t : ℕ) (a b : List CellEvent)
        (rows stay gone : List HeldRow) → SameBag rows (opens t (clipped meets a b)) →
        ((w : HeldRow → ℕ) → total w rows ≡ total w stay + total w gone) →
        ((w : HeldRow → ℕ) → total w gone ≡ total
        (λ r. cond (starts_at meets b r.cells t) (w r) 0) rows) →
        (now : List Edge) (i : ℕ) (x : Edge) (mid : List HeldRow) → AreEvents a →
        SameBag now (news t (suc t) a) → i < length now → x ≡ get_or now i x → is_end x ≡ true →
        ((w : HeldRow → ℕ) → total w stay ≡ total w mid + total
        (λ r. cond (is_clipped meets b (suc t) r) 0 (w r)) (ended_rows (take i now))) →
        is_clipped meets b (suc t) (record { cells = x.cells; start = x.other }) ≡ true →
        many (is_held x.cells x.other) mid ≡ 0 }
    ensures held { (meets : RowTest) (t : ℕ) (a b : List CellEvent)
        (rows stay gone : List HeldRow) → SameBag rows (opens t (clipped meets a b)) →
        ((w : HeldRow → ℕ) → total w rows ≡ total w stay + total w gone) →
        ((w : HeldRow → ℕ) → total w gone ≡ total
        (λ r. cond (starts_at meets b r.cells t) (w r) 0) rows) →
        (now : List Edge) (i : ℕ) (x : Edge) (mid : List HeldRow) → AreEvents a →
        SameBag now (news t (suc t) a) → i < length now → x ≡ get_or now i x → is_end x ≡ true →
        ((w : HeldRow → ℕ) → total w stay ≡ total w mid + total
        (λ r. cond (is_clipped meets b (suc t) r) 0 (w r)) (ended_rows (take i now))) →
        is_clipped meets b (suc t) (record { cells = x.cells; start = x.other }) ≡ false →
        1 ≤ many (is_held x.cells x.other) mid }
    ensures between { (meets : RowTest) (u t : ℕ) (a b : List CellEvent) (rows : List HeldRow) →
        u ≤ t → AreEvents a → AreEvents b → ((w : Edge → ℕ) → total w (news u t a) ≡ 0) →
        ((w : Edge → ℕ) → total w (news u t b) ≡ 0) → SameBag rows (opens u (clipped meets a b)) →
        SameBag rows (opens t (clipped meets a b))
        × ((w : Edge → ℕ) → total w (news u t (clipped meets a b)) ≡ 0) }
{}

/// One instant of an anti-join with its kept rows. The left ends are told by their keys' status and taken out; the right rows
/// move on, and each key is judged by them; of the rows that stay first the ends are told and then the starts, where their key
/// is free no more, or free again; and the left starts are put in, and told where their key is free. What was told is the news,
/// in order, and the rows and statuses are those after the instant. Between instants at which a side has news they stay, and
/// nothing is told.
pub fn an_anti_join_tells_an_instant<K>()
    ensures told { (key : List Datum → K) (meets : RowTest) (a b : List CellEvent) (t : ℕ)
        (now_left now_right : List Edge) (left stay left2 right right2 : List HeldRow) (status : K →
        Option ℕ) (free : K → Bool) (answer0 answer1 answer2 answer3 answer4 : List Edge) →
        t < inf → AreEvents a → AreEvents b → SameBag now_left (news t (suc t) a) →
        SameBag now_right (news t (suc t) b) → Judging key meets a b t left right status →
        (((w : HeldRow → ℕ) → total w (ended_rows now_left) ≤ total w left) → (w : HeldRow → ℕ) →
        total w left ≡ total w stay + total w (ended_rows now_left)) →
        ((w : HeldRow → ℕ) → total w left2 ≡ total w stay + total w (started_rows now_left)) →
        (((w : HeldRow → ℕ) → total w (ended_rows now_right) ≤ total w right) → (w : HeldRow → ℕ) →
        total w right2 + total w (ended_rows now_right) ≡ total w right
        + total w (started_rows now_right)) → ((row : List Datum) →
        meets_none meets (bare right2) row ≡ free (key row)) →
        Adds answer0 answer1 (flat_map (λ r. end_of (status (key r.cells)) t r)
        (ended_rows now_left)) → Adds answer1 answer2
        (flat_map (λ r. flip_end (free (key r.cells)) (status (key r.cells)) t r) stay) →
        Adds answer2 answer3 (flat_map (λ r. flip_start (free (key r.cells)) (status (key r.cells))
        t r) stay) → Adds answer3 answer4 (flat_map
        (λ r. begin_of (free (key r.cells)) t r) (started_rows now_left)) →
        Judging key meets a b (suc t) left2 right2 (λ k. judged (free k) t (status k))
        × TellsNews (alone same_cells meets a b) t (suc t) answer0 answer4 }
    ensures between { (key : List Datum → K) (meets : RowTest) (a b : List CellEvent) (u t : ℕ)
        (left right : List HeldRow) (status : K → Option ℕ) → u ≤ t → t ≤ inf → AreEvents a →
        AreEvents b → ((w : Edge → ℕ) → total w (news u t a) ≡ 0) →
        ((w : Edge → ℕ) → total w (news u t b) ≡ 0) → Judging key meets a b u left right status →
        Judging key meets a b t left right status
        × ((w : Edge → ℕ) → total w (news u t (alone same_cells meets a b)) ≡ 0) }
{}

/// Of the events of sessions, and of the right events of a clip, starts alone matter: as if these events never ended, they
/// give the same sessions and clipped events, and their news are the starts. So a side of which starts alone wait is swept as
/// any other.
pub fn starts_alone_are_enough<K>()
    ensures news { (c d : ℕ) (events : List CellEvent) → d ≤ inf → AreEvents events →
        SameBag (filter is_start (news c d events)) (news c d (map unending events)) }
    ensures lives { (events : List CellEvent) → AreEvents events → AreEvents (map unending events) }
    ensures sessions { (key : List Datum → K) (same : K → K → Bool) (timeout : ℕ)
        (events : List CellEvent) → sessions key same timeout (map unending events)
        ≡ sessions key same timeout events }
    ensures clips { (meets : RowTest) (a b : List CellEvent) →
        clipped meets a (map unending b) ≡ clipped meets a b }
{}
