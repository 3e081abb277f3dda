// The laws of rows replaced: for each step that nodes use, what it makes of events with their rows replaced is what it
// makes of the events, with their rows replaced, where what the step asks of rows stays as it was.
ghost use Rattle.std.specs.Prelude.{◌≡◌, ℕ, ◌<◌, ℤ, Bool, Option, List, map};
ghost use Rattle.std.specs.Option.{option_map};
ghost use Rattle.tw_rows.specs.Event.{Event, alive, AreEvents, cut};
ghost use Rattle.key_nodes.specs.Runs.{runs};
ghost use Rattle.key_nodes.specs.Groups.{distinct, grouped};
ghost use Rattle.key_nodes.specs.Antis.{alone};
ghost use Rattle.key_nodes.specs.Sessions.{sessions};
ghost use Rattle.key_nodes.specs.Clips.{clipped};
ghost use Rattle.key_nodes.specs.Joins.{joined};
ghost use Rattle.key_nodes.specs.Coalesced.{coalesced};
ghost use Rattle.key_nodes.specs.Tops.{top_rows, top};
ghost use Rattle.key_nodes.specs.Follows.{followed};
ghost use Rattle.plan_model.specs.Lives.{moved, hopped, lasting, extended};
ghost use Rattle.plan_model.specs.Nodes.{events_to};

/// Lifetimes do not depend on rows: what is alive, what is known, and each change of lifetimes.
pub fn lives_do_not_depend_on_rows<R, S>()
    ensures alive { (f : R → S) (es : List (Event R)) (t : ℕ) →
        alive (events_to f es) t ≡ map f (alive es t) }
    ensures valid { (f : R → S) (es : List (Event R)) → AreEvents es → AreEvents (events_to f es) }
    ensures known { (f : R → S) (c : ℕ) (es : List (Event R)) →
        cut c (events_to f es) ≡ events_to f (cut c es) }
    ensures moved { (f : R → S) (by : ℕ) (es : List (Event R)) →
        moved by (events_to f es) ≡ events_to f (moved by es) }
    ensures hopped { (f : R → S) (size period : ℕ) (es : List (Event R)) →
        hopped size period (events_to f es) ≡ events_to f (hopped size period es) }
    ensures lasting { (f : R → S) (by : ℕ) (es : List (Event R)) →
        lasting by (events_to f es) ≡ events_to f (lasting by es) }
    ensures extended { (f : R → S) (by : ℕ) (es : List (Event R)) →
        extended by (events_to f es) ≡ events_to f (extended by es) }
{}

/// Runs, coalesced events and tops of rows replaced, where two rows are the same exactly where they were, and the
/// greatest by the same values.
pub fn runs_follow_replaced_rows<R, S>()
    ensures distinct { (f : R → S) (same : R → R → Bool) (same_to : S → S → Bool) →
        ((a b : R) → same_to (f a) (f b) ≡ same a b) →
        (rows : List R) → distinct same_to (map f rows) ≡ map f (distinct same rows) }
    ensures runs { (f : R → S) (same : R → R → Bool) (same_to : S → S → Bool) →
        ((a b : R) → same_to (f a) (f b) ≡ same a b) →
        (rows : ℕ → Option R) (made : ℕ → Option S) → ((t : ℕ) → made t ≡ option_map f (rows t)) →
        (n : ℕ) → runs same_to made n ≡ events_to f (runs same rows n) }
    ensures coalesced { (f : R → S) (same : R → R → Bool) (same_to : S → S → Bool) →
        ((a b : R) → same_to (f a) (f b) ≡ same a b) →
        (rows : ℕ → List R) (made : ℕ → List S) → ((t : ℕ) → made t ≡ map f (rows t)) →
        coalesced same_to made ≡ events_to f (coalesced same rows) }
    ensures top { (f : R → S) (meets : R → R → Bool) (meets_to : S → S → Bool) (value : R → ℤ)
        (value_to : S → ℤ) → ((a b : R) → meets_to (f a) (f b) ≡ meets a b) →
        ((a : R) → value_to (f a) ≡ value a) → (same : R → R → Bool) (same_to : S → S → Bool) →
        ((a b : R) → same_to (f a) (f b) ≡ same a b) → (count : ℕ) (es : List (Event R)) →
        top same_to meets_to value_to count (events_to f es)
        ≡ events_to f (top same meets value count es) }
{}

/// Groups and sessions of rows and keys replaced, where two keys are the same exactly where they were.
pub fn groups_follow_replaced_rows<R, K, S, RTo, KTo, STo>()
    ensures groups { (f : R → RTo) (g : K → KTo) (h : S → STo) (key : R → K) (key_to : RTo → KTo)
        (same : K → K → Bool) (same_to : KTo → KTo → Bool) (same_row : S → S → Bool)
        (same_row_to : STo → STo → Bool) (tell : K → List R → Option S) (tell_to : KTo → List RTo →
        Option STo) → ((r : R) → key_to (f r) ≡ g (key r)) →
        ((a b : K) → same_to (g a) (g b) ≡ same a b) →
        ((a b : S) → same_row_to (h a) (h b) ≡ same_row a b) →
        ((k : K) (rows : List R) → tell_to (g k) (map f rows) ≡ option_map h (tell k rows)) →
        (es : List (Event R)) → grouped key_to same_to same_row_to tell_to (events_to f es)
        ≡ events_to h (grouped key same same_row tell es) }
    ensures sessions { (f : R → RTo) (g : K → KTo) (key : R → K) (key_to : RTo → KTo) (same : K →
        K → Bool) (same_to : KTo → KTo → Bool) (timeout : ℕ) →
        ((r : R) → key_to (f r) ≡ g (key r)) → ((a b : K) → same_to (g a) (g b) ≡ same a b) →
        (es : List (Event R)) → sessions key_to same_to timeout (events_to f es)
        ≡ events_to f (sessions key same timeout es) }
{}

/// Joins, anti-joins, clips and followed events of rows replaced on both sides, where two rows meet exactly where they
/// did.
pub fn pairs_follow_replaced_rows<L, R, P, LTo, RTo, PTo>()
    ensures joins { (f : L → LTo) (g : R → RTo) (h : P → PTo) (meets : L → R → Bool)
        (meets_to : LTo → RTo → Bool) (pair : L → R → P) (pair_to : LTo → RTo → PTo) →
        ((a : L) (b : R) → meets_to (f a) (g b) ≡ meets a b) →
        ((a : L) (b : R) → pair_to (f a) (g b) ≡ h (pair a b)) →
        (ls : List (Event L)) (rs : List (Event R)) →
        joined meets_to pair_to (events_to f ls) (events_to g rs)
        ≡ events_to h (joined meets pair ls rs) }
    ensures antis { (f : L → LTo) (g : R → RTo) (same : L → L → Bool) (same_to : LTo → LTo → Bool)
        (meets : L → R → Bool) (meets_to : LTo → RTo → Bool) →
        ((a b : L) → same_to (f a) (f b) ≡ same a b) →
        ((a : L) (b : R) → meets_to (f a) (g b) ≡ meets a b) →
        (ls : List (Event L)) (rs : List (Event R)) →
        alone same_to meets_to (events_to f ls) (events_to g rs)
        ≡ events_to f (alone same meets ls rs) }
    ensures clips { (f : L → LTo) (g : R → RTo) (meets : L → R → Bool) (meets_to : LTo → RTo →
        Bool) → ((a : L) (b : R) → meets_to (f a) (g b) ≡ meets a b) →
        (ls : List (Event L)) (rs : List (Event R)) →
        clipped meets_to (events_to f ls) (events_to g rs) ≡ events_to f (clipped meets ls rs) }
    ensures follows { (f : L → LTo) (g : R → RTo) (h : P → PTo) (meets : L → R → Bool)
        (meets_to : LTo → RTo → Bool) (pair : L → R → P) (pair_to : LTo → RTo → PTo) →
        ((a : L) (b : R) → meets_to (f a) (g b) ≡ meets a b) →
        ((a : L) (b : R) → pair_to (f a) (g b) ≡ h (pair a b)) →
        (within : ℕ) (ls : List (Event L)) (rs : List (Event R)) →
        followed meets_to pair_to within (events_to f ls) (events_to g rs)
        ≡ events_to h (followed meets pair within ls rs) }
{}
