// The laws of a join that goes from instant to instant. `meets` says which rows are paired, and `pair` makes the row of a
// pair.
ghost use Rattle.std.specs.Prelude.{◌≡◌, ℕ, suc, ◌+◌, ◌<◌, ◌≤◌, Bool, true, false, List, [], ◌∷◌, ◌++◌, length, get_or, take, drop, map, flat_map};
ghost use Rattle.tw_rows.specs.Instant.{inf};
ghost use Rattle.tw_rows.specs.Bag.{SameBag, total};
ghost use Rattle.tw_rows.specs.Event.{AreEvents};
ghost use Rattle.tw_rows.specs.declared.edge.Edge.{Edge};
ghost use Rattle.tw_rows.specs.declared.edge.HeldRow.{HeldRow};
ghost use Rattle.edge_history.specs.Order.{failing, is_from, is_below, IsHistory};
ghost use Rattle.edge_history.specs.History.{CellEvent, of};
ghost use Rattle.edge_history.specs.Balance.{news};
ghost use Rattle.edge_history.specs.Opens.{singles, opens, ended_rows, started_rows};
ghost use Rattle.key_nodes.specs.Joins.{joined};
ghost use Rattle.sweep_laws.specs.Meeting.{RowTest, RowPair};
ghost use Rattle.sweep_laws.specs.Sweeps.{is_at, IsPast, SyncsRise, IsDue, Tells, IsNext};
ghost use Rattle.sweep_laws.specs.Moves.{Adds, told_at};
ghost use Rattle.sweep_laws.specs.Pairs.{pairs, sided, pairs_told, Held};
ghost use Rattle.sweep_laws.specs.Joining.{JoinReached, JoinKeeps};

/// The pairs that are open are the pairs of what is open, whatever the order of the rows.
pub fn open_pairs_are_pairs_of_open_rows()
    ensures opens { (meets : RowTest) (pair : RowPair) (t : ℕ) (a b : List CellEvent) →
        SameBag (opens t (joined meets pair a b)) (pairs meets pair (opens t a) (opens t b)) }
    ensures same { (meets : RowTest) (pair : RowPair) (ls ms rs ss : List HeldRow) → SameBag ls ms →
        SameBag rs ss → SameBag (pairs meets pair ls rs) (pairs meets pair ms ss) }
{}

/// The pairs of one row are told row by row of the other side, and those of the rows of some edges edge by edge. `f` gives the
/// rows of an edge: those that it ends, or those that it starts.
pub fn pairs_are_told_row_by_row()
    ensures row { (meets : RowTest) (pair : RowPair) (right starts : Bool) (t : ℕ) (x y : HeldRow)
        (others : List HeldRow) (i : ℕ) (answer0 answer1 answer2 : List Edge) → i < length others →
        y ≡ get_or others i y → answer2 ≡ answer1 ++ map (told_at starts t)
        (sided meets pair right x y) → Adds answer0 answer1
        (pairs_told meets pair right starts t (x ∷ []) (take i others)) →
        Adds answer0 answer2 (pairs_told meets pair right starts t (x ∷ []) (take (i + 1) others)) }
    ensures edge { (meets : RowTest) (pair : RowPair) (f : Edge → List HeldRow)
        (right starts : Bool) (t : ℕ) (x : Edge) (now : List Edge) (others : List HeldRow) (i : ℕ)
        (answer0 answer1 answer2 : List Edge) → i < length now → x ≡ get_or now i x →
        Adds answer1 answer2 (pairs_told meets pair right starts t (f x) others) →
        Adds answer0 answer1 (pairs_told meets pair right starts t (flat_map f (take i now))
        others) → Adds answer0 answer2 (pairs_told meets pair right starts t
        (flat_map f (take (i + 1) now)) others) }
{}

/// One instant of a join. The left ends are told with the right rows that were open, and taken out; then the right ends
/// with the left rows that are left; then the left starts with the right rows that stay, and put in; and then the right
/// starts with all left rows. What was told is the news of the pairs, in order, and the rows are those that are open after
/// the instant. So two rows that end at one instant give one end.
pub fn a_join_tells_an_instant()
    ensures { (meets : RowTest) (pair : RowPair) (a b : List CellEvent) (t : ℕ)
        (now_left now_right : List Edge) (left0 left1 left2 right0 right1 right2 : List HeldRow)
        (answer0 answer1 answer2 answer3 answer4 : List Edge) → t < inf → AreEvents a →
        AreEvents b → SameBag now_left (news t (suc t) a) → SameBag now_right (news t (suc t) b) →
        Held a b t left0 right0 → (((w : HeldRow → ℕ) →
        total w (ended_rows now_left) ≤ total w left0) → (w : HeldRow → ℕ) →
        total w left0 ≡ total w left1 + total w (ended_rows now_left)) →
        (((w : HeldRow → ℕ) → total w (ended_rows now_left) ≤ total w left0) →
        Adds answer0 answer1 (pairs_told meets pair false false t (ended_rows now_left) right0)) →
        (((w : HeldRow → ℕ) → total w (ended_rows now_right) ≤ total w right0) → (w : HeldRow → ℕ) →
        total w right0 ≡ total w right1 + total w (ended_rows now_right)) →
        (((w : HeldRow → ℕ) → total w (ended_rows now_right) ≤ total w right0) →
        Adds answer1 answer2 (pairs_told meets pair true false t (ended_rows now_right) left1)) →
        ((w : HeldRow → ℕ) → total w left2 ≡ total w left1 + total w (started_rows now_left)) →
        Adds answer2 answer3 (pairs_told meets pair false true t (started_rows now_left) right1) →
        ((w : HeldRow → ℕ) → total w right2 ≡ total w right1 + total w (started_rows now_right)) →
        Adds answer3 answer4 (pairs_told meets pair true true t (started_rows now_right) left2) →
        Held a b (suc t) left2 right2 × Tells (joined meets pair a b) t (suc t) answer0 answer4 }
{}

/// A join goes from instant to instant: it begins with what is due, each instant takes the edges of it from both sides, and
/// where no edge is left it has reached the end.
pub fn a_join_goes_from_instant_to_instant()
    ensures start { (meets : RowTest) (pair : RowPair) (a b : List CellEvent) (from to : ℕ)
        (due_left due_right : List Edge) (left right : List HeldRow) (answer : List Edge) →
        IsDue a from to due_left → IsDue b from to due_right → Held a b from left right →
        JoinReached meets pair a b from from to due_left due_right left right answer answer }
    ensures step { (meets : RowTest) (pair : RowPair) (a b : List CellEvent) (from u t to n m : ℕ)
        (rest_left rest_right : List Edge) (left right left2 right2 : List HeldRow)
        (answer0 answer1 answer2 : List Edge) →
        JoinReached meets pair a b from u to rest_left rest_right left right answer0 answer1 →
        IsNext t rest_left rest_right → failing (is_at t) (take n rest_left) ≡ 0 →
        IsPast t (drop n rest_left) → failing (is_at t) (take m rest_right) ≡ 0 →
        IsPast t (drop m rest_right) → (t < inf → AreEvents a → AreEvents b →
        SameBag (take n rest_left) (news t (suc t) a) →
        SameBag (take m rest_right) (news t (suc t) b) → Held a b t left right →
        Held a b (suc t) left2 right2 × Tells (joined meets pair a b) t (suc t) answer1 answer2) →
        JoinReached meets pair a b from (suc t) to (drop n rest_left) (drop m rest_right) left2
        right2 answer0 answer2 }
    ensures end { (meets : RowTest) (pair : RowPair) (a b : List CellEvent) (from u to : ℕ)
        (rest_left rest_right : List Edge) (left right : List HeldRow)
        (answer0 answer1 : List Edge) → rest_left ≡ [] → rest_right ≡ [] →
        JoinReached meets pair a b from u to rest_left rest_right left right answer0 answer1 →
        Held a b to left right × Tells (joined meets pair a b) from to answer0 answer1 }
{}

/// A whole step of a join keeps what a join keeps. On each side the new edges are put to those that wait, the due ones are
/// taken out, in order, and the rest waits on; where a sweep over the due ones goes from the rows to new ones and tells the
/// news, these rows and the longer answer are kept.
pub fn a_join_keeps_its_rows()
    ensures { (meets : RowTest) (pair : RowPair) (c d : ℕ)
        (hl hr new_left new_right wait_l put_l rest_l due_l wait_r put_r rest_r due_r : List Edge) →
        c ≤ d → d ≤ inf → IsHistory (hl ++ new_left) → IsHistory (hr ++ new_right) →
        failing (is_from c) new_left ≡ 0 → failing (is_from c) new_right ≡ 0 →
        ((w : Edge → ℕ) → total w put_l ≡ total w wait_l + total w (singles new_left)) →
        ((w : Edge → ℕ) → total w put_r ≡ total w wait_r + total w (singles new_right)) →
        ((w : Edge → ℕ) → total w due_l + total w rest_l ≡ total w put_l) →
        ((w : Edge → ℕ) → total w due_r + total w rest_r ≡ total w put_r) →
        failing (is_below d) due_l ≡ 0 → failing (is_below d) due_r ≡ 0 →
        failing (is_from d) rest_l ≡ 0 → failing (is_from d) rest_r ≡ 0 → SyncsRise 0 due_l →
        SyncsRise 0 due_r → (left left2 right right2 : List HeldRow)
        (out answer0 answer : List Edge) → JoinKeeps meets pair left right wait_l wait_r c hl hr
        out → answer0 ≡ [] → (IsDue (of (hl ++ new_left)) c d due_l →
        IsDue (of (hr ++ new_right)) c d due_r →
        Held (of (hl ++ new_left)) (of (hr ++ new_right)) c left right →
        Held (of (hl ++ new_left)) (of (hr ++ new_right)) d left2 right2
        × Tells (joined meets pair (of (hl ++ new_left)) (of (hr ++ new_right))) c d answer0
        answer) → JoinKeeps meets pair left2 right2 rest_l rest_r d (hl ++ new_left)
        (hr ++ new_right) (out ++ answer) }
{}
