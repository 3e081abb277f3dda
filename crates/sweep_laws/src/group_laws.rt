// The laws of a group that goes from instant to instant. `key` gives the key of a row, `same` tells whether keys are equal,
// `tell` makes the row of a key from the rows that are alive, and `bad` says of which rows a key's group is undefined.
ghost use Rattle.std.specs.Prelude.{◌≡◌, ℕ, suc, ◌+◌, ◌*◌, ◌<◌, ◌≤◌, Bool, true, false, Option};
ghost use Rattle.std.specs.Prelude.{List, [], ◌++◌, take, drop, length, get_or, cond};
ghost use Rattle.std.specs.List.{list_any};
ghost use Rattle.tw_rows.specs.Instant.{inf};
ghost use Rattle.tw_rows.specs.Bag.{SameBag, total};
ghost use Rattle.tw_rows.specs.Event.{AreEvents};
ghost use Rattle.tw_rows.specs.SameCells.{same_cells};
ghost use Rattle.tw_rows.specs.declared.cells.Datum.{Datum};
ghost use Rattle.tw_rows.specs.declared.edge.Edge.{Edge};
ghost use Rattle.tw_rows.specs.declared.edge.HeldRow.{HeldRow};
ghost use Rattle.edge_history.specs.Order.{failing, is_from, is_below, Rises, IsHistory};
ghost use Rattle.edge_history.specs.History.{CellEvent, of};
ghost use Rattle.edge_history.specs.Balance.{news};
ghost use Rattle.edge_history.specs.Opens.{singles, bare};
ghost use Rattle.key_nodes.specs.Runs.{Tells as KeyTells, runs};
ghost use Rattle.key_nodes.specs.Groups.{distinct, grouped};
ghost use Rattle.sweep_laws.specs.Sweeps.{is_at, IsPast, StartsAt, IsDue, InOrder, Tells};
ghost use Rattle.sweep_laws.specs.Running.{Run, open_at, tells, goes, end_part, kept, start_part, begun_at};
ghost use Rattle.sweep_laws.specs.Grouping.{keys_of, EndsTold, StartsTold, IsEarly};
ghost use Rattle.sweep_laws.specs.Grouping.{GroupSweeping, IsDefined, IsFirstUndefined};
ghost use Rattle.sweep_laws.specs.Grouping.{GroupReached, GroupKeeps};
ghost use Rattle.sweep_laws.specs.AnyGroup.{OfAnyGroup, MovesOn};

/// Over a stretch of instants at which the row is the same, the runs of a row tell at its beginning what leads from the run
/// that is open there to the row, and nothing else; and the run that is open then goes on. It began before.
pub fn runs_tell_a_stretch()
    ensures told { (w : Edge → ℕ) (f : ℕ → Option (List Datum)) (o : Option (List Datum))
        (t u : ℕ) → t < u → u ≤ inf → ((v : ℕ) → t ≤ v → v < u → f v ≡ o) →
        (total w (news t u (runs same_cells f inf)) ≡ total w (tells t o (open_at f t)))
        × (open_at f u ≡ goes t o (open_at f t)) }
    ensures early { (f : ℕ → Option (List Datum)) (t : ℕ) → IsEarly t (open_at f t) }
{}

/// Where a function of keys changes at one key alone, the sum over all keys changes by that.
pub fn one_key_changes_a_sum<K>()
    ensures { (same : K → K → Bool) → KeyTells same → (g h : K → ℕ) (q : K) (ks : List K) →
        list_any (same q) ks ≡ true → ((k : K) → same q k ≡ false → h k ≡ g k) →
        total h (distinct same ks) + g q ≡ total g (distinct same ks) + h q }
{}

/// A pass over the edges of an instant tells the ends, or the starts, of their keys edge by edge.
pub fn keys_are_told_edge_by_edge<K>()
    ensures ends { (key : List Datum → K) (same : K → K → Bool) → KeyTells same →
        (t : ℕ) (now : List Edge) (i : ℕ) (x : Edge) (o : K → Option (List Datum))
        (run0 run1 run2 : K → Option Run) (answer0 answer1 answer2 : List Edge) → i < length now →
        x ≡ get_or now i x → answer2 ≡ answer1 ++ end_part t (o (key x.cells))
        (run1 (key x.cells)) → ((k : K) → run2 k
        ≡ cond (same (key x.cells) k) (kept (o (key x.cells)) (run1 (key x.cells))) (run1 k)) →
        EndsTold key same t (take i now) o run0 run1 answer0 answer1 →
        EndsTold key same t (take (i + 1) now) o run0 run2 answer0 answer2 }
    ensures starts { (key : List Datum → K) (same : K → K → Bool) → KeyTells same →
        (t : ℕ) (now : List Edge) (i : ℕ) (x : Edge) (o : K → Option (List Datum))
        (run0 run1 run2 : K → Option Run) (answer0 answer1 answer2 : List Edge) → i < length now →
        x ≡ get_or now i x → answer2 ≡ answer1 ++ start_part t (o (key x.cells))
        (run1 (key x.cells)) → ((k : K) → run2 k
        ≡ cond (same (key x.cells) k) (begun_at t (o (key x.cells)) (run1 (key x.cells)))
        (run1 k)) → StartsTold key same t (take i now) o run0 run1 answer0 answer1 →
        StartsTold key same t (take (i + 1) now) o run0 run2 answer0 answer2 }
{}

/// The order of an answer stays while ends, and then starts, of keys are told: runs that are open began before. Of no edge
/// nothing is told, and what is so of the key of each edge is so of all their keys.
pub fn keys_are_told_in_order<K>()
    ensures ends { (key : List Datum → K) (same : K → K → Bool) (t : ℕ) (now : List Edge) (i : ℕ)
        (k : K) (o : K → Option (List Datum)) (run0 run1 : K → Option Run)
        (answer0 answer1 answer2 : List Edge) → answer2 ≡ answer1 ++ end_part t (o k) (run1 k) →
        EndsTold key same t (take i now) o run0 run1 answer0 answer1 →
        ((q : K) → IsEarly t (run0 q)) → InOrder (2 * t) answer1 → InOrder (2 * t) answer2 }
    ensures starts { (t : ℕ) (o : Option (List Datum)) (x : Option Run)
        (answer1 answer2 : List Edge) → t < inf → answer2 ≡ answer1 ++ start_part t o x →
        InOrder (suc (2 * t)) answer1 → InOrder (suc (2 * t)) answer2 }
    ensures none { (key : List Datum → K) (same : K → K → Bool) (t : ℕ) (o : K →
        Option (List Datum)) (run : K → Option Run) (answer : List Edge) →
        EndsTold key same t [] o run run answer answer
        × StartsTold key same t [] o run run answer answer }
    ensures all { (key : List Datum → K) (same : K → K → Bool) → KeyTells same →
        (test : K → Bool) (now : List Edge) (i : ℕ) (x : Edge) → i < length now →
        x ≡ get_or now i x → test (key x.cells) ≡ false →
        ((k : K) → list_any (same k) (keys_of key (take i now)) ≡ true → test k ≡ false) → (k : K) →
        list_any (same k) (keys_of key (take (i + 1) now)) ≡ true → test k ≡ false }
{}

/// One instant of a group: the rows have moved on by its edges, o gives the rows of the keys then, no key of the edges is
/// undefined, and the ends and then the starts of these keys were told. Then all that happens to the groups was told. Where a
/// key is undefined after the edges, the instant is the first at which a group is.
pub fn a_group_tells_an_instant<K>()
    ensures told { OfAnyGroup K (λ key same tell bad.
        (a : List CellEvent) (t : ℕ) (now : List Edge) (rows later : List HeldRow) (o : K →
        Option (List Datum)) (run0 run1 run2 : K → Option Run)
        (answer0 answer1 answer2 : List Edge) → t < inf → AreEvents a →
        SameBag now (news t (suc t) a) → GroupSweeping tell bad a t rows run0 →
        MovesOn now rows later → ((k : K) → o k ≡ tell k (bare later)) →
        ((k : K) → list_any (same k) (keys_of key now) ≡ true → bad k (bare later) ≡ false) →
        EndsTold key same t now o run0 run1 answer0 answer1 →
        StartsTold key same t now o run1 run2 answer1 answer2 →
        (((k : K) → IsEarly t (run0 k)) → InOrder (2 * t) answer0 → InOrder (2 * t) answer1) →
        (t < inf → InOrder (suc (2 * t)) answer1 → InOrder (suc (2 * t)) answer2) →
        GroupSweeping tell bad a (suc t) later run2
        × Tells (grouped key same same_cells tell a) t (suc t) answer0 answer2) }
    ensures undefined { OfAnyGroup K (λ key same tell bad.
        (a : List CellEvent) (t : ℕ) (now : List Edge) (rows later : List HeldRow) (run0 : K →
        Option Run) → AreEvents a → SameBag now (news t (suc t) a) →
        GroupSweeping tell bad a t rows run0 → MovesOn now rows later →
        ((k : K) × (bad k (bare later) ≡ true)) → IsFirstUndefined bad a t (suc t) t) }
{}

/// A group goes from instant to instant: it begins with what is due, takes the edges of the next instant, stops at the first
/// instant at which a group is undefined, and has reached the end where no edge is left.
pub fn a_group_goes_from_instant_to_instant<K>()
    ensures start { OfAnyGroup K (λ key same tell bad.
        (a : List CellEvent) (from to : ℕ) (due : List Edge) (rows : List HeldRow) (run : K →
        Option Run) (answer : List Edge) → IsDue a from to due →
        GroupSweeping tell bad a from rows run →
        GroupReached key same tell bad a from from to due rows run answer answer) }
    ensures step { OfAnyGroup K (λ key same tell bad.
        (a : List CellEvent) (from u t to n : ℕ) (rest : List Edge) (rows : List HeldRow) (run : K →
        Option Run) (answer0 answer1 : List Edge) →
        GroupReached key same tell bad a from u to rest rows run answer0 answer1 → StartsAt t rest →
        failing (is_at t) (take n rest) ≡ 0 → IsPast t (drop n rest) →
        (later : List HeldRow) (run2 : K → Option Run) (answer2 : List Edge) →
        (t < inf → AreEvents a → SameBag (take n rest) (news t (suc t) a) →
        GroupSweeping tell bad a t rows run → GroupSweeping tell bad a (suc t) later run2
        × Tells (grouped key same same_cells tell a) t (suc t) answer1 answer2) →
        GroupReached key same tell bad a from (suc t) to (drop n rest) later run2 answer0 answer2) }
    ensures undefined { OfAnyGroup K (λ key same tell bad.
        (a : List CellEvent) (from u t to n : ℕ) (rest : List Edge) (rows : List HeldRow) (run : K →
        Option Run) (answer0 answer1 : List Edge) →
        GroupReached key same tell bad a from u to rest rows run answer0 answer1 → StartsAt t rest →
        failing (is_at t) (take n rest) ≡ 0 → IsPast t (drop n rest) →
        (t < inf → AreEvents a → SameBag (take n rest) (news t (suc t) a) →
        GroupSweeping tell bad a t rows run → IsFirstUndefined bad a t (suc t) t) →
        IsFirstUndefined bad a from to t) }
    ensures end { OfAnyGroup K (λ key same tell bad.
        (a : List CellEvent) (from u to : ℕ) (rest : List Edge) (rows : List HeldRow) (run : K →
        Option Run) (answer0 answer1 : List Edge) → rest ≡ [] →
        GroupReached key same tell bad a from u to rest rows run answer0 answer1 →
        GroupSweeping tell bad a to rows run × Tells
        (grouped key same same_cells tell a) from to answer0 answer1 × IsDefined bad a from to) }
{}

/// A whole step of a group keeps what a group keeps, or finds the least instant of all at which a group is undefined. The new
/// edges are put to those that wait, the due ones are taken out, in order, and the rest waits on.
pub fn a_group_keeps_its_rows<K>()
    ensures keeps { OfAnyGroup K (λ key same tell bad.
        (came new waiting put due rest : List Edge) (c d : ℕ) → c ≤ d → d ≤ inf →
        IsHistory (came ++ new) → failing (is_from c) new ≡ 0 →
        ((w : Edge → ℕ) → total w put ≡ total w waiting + total w (singles new)) →
        ((w : Edge → ℕ) → total w due + total w rest ≡ total w put) → failing (is_below d) due ≡ 0 →
        failing (is_from d) rest ≡ 0 → Rises 0 due →
        (rows : List HeldRow) (run : K → Option Run) (out : List Edge) →
        GroupKeeps key same tell bad rows run waiting c came out →
        (later : List HeldRow) (run2 : K → Option Run) (answer0 answer : List Edge) → answer0 ≡ [] →
        (IsDue (of (came ++ new)) c d due → GroupSweeping tell bad (of (came ++ new)) c rows run →
        GroupSweeping tell bad (of (came ++ new)) d later run2
        × Tells (grouped key same same_cells tell (of (came ++ new))) c d answer0 answer
        × IsDefined bad (of (came ++ new)) c d) →
        GroupKeeps key same tell bad later run2 rest d (came ++ new) (out ++ answer)) }
    ensures undefined { OfAnyGroup K (λ key same tell bad.
        (came new waiting put due rest : List Edge) (c d : ℕ) → c ≤ d → d ≤ inf →
        IsHistory (came ++ new) → failing (is_from c) new ≡ 0 →
        ((w : Edge → ℕ) → total w put ≡ total w waiting + total w (singles new)) →
        ((w : Edge → ℕ) → total w due + total w rest ≡ total w put) → failing (is_below d) due ≡ 0 →
        failing (is_from d) rest ≡ 0 → Rises 0 due →
        (rows : List HeldRow) (run : K → Option Run) (out : List Edge) →
        GroupKeeps key same tell bad rows run waiting c came out → (t : ℕ) →
        (IsDue (of (came ++ new)) c d due → GroupSweeping tell bad (of (came ++ new)) c rows run →
        IsFirstUndefined bad (of (came ++ new)) c d t) →
        IsFirstUndefined bad (of (came ++ new)) 0 d t) }
{}
