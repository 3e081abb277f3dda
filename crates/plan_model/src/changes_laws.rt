// The laws of changelog lines: they follow the rows from instant to instant, stand in order, and are final.
ghost use Rattle.std.specs.Prelude.{◌≡◌, ℕ, suc, ◌+◌, ◌-◌, ◌<◌, ◌≤◌, List, [], ◌∷◌, ◌++◌, length, IsSorted};
ghost use Rattle.tw_rows.specs.Bag.{SameBag};
ghost use Rattle.tw_rows.specs.Rows.{Row};
ghost use Rattle.plan_model.specs.Opens.{how_often, before};
ghost use Rattle.plan_model.specs.Changes.{Line, Ended, changes_at, changes};
ghost use Rattle.plan_model.specs.ChangeWords.{line_cmp, start_times, named_times, IsFirstOpen};

/// Up to any instant a row has as many start lines more than end lines as it stands among the rows of that instant.
pub fn lines_count_rows()
    ensures { (rows : ℕ → List Row) (r : Row) (t : ℕ) →
        length (start_times r (changes rows 0 (suc t)))
        ≡ length (named_times r (changes rows 0 (suc t))) + how_often r (rows t) }
{}

/// At an instant a row has a start line for each time that it stands there more often than just before, and an end line
/// for each time that it stands there less often.
pub fn lines_follow_rows()
    ensures starts { (rows : ℕ → List Row) (r : Row) (t : ℕ) →
        length (start_times r (changes_at rows t))
        ≡ how_often r (rows t) - how_often r (before rows t) }
    ensures ends { (rows : ℕ → List Row) (r : Row) (t : ℕ) →
        length (named_times r (changes_at rows t))
        ≡ how_often r (before rows t) - how_often r (rows t) }
{}

/// The lines stand in order of their instants; at one instant the end lines before the start lines, and each of these in the
/// order of their rows.
pub fn lines_stand_in_order()
    ensures { (rows : ℕ → List Row) (a n : ℕ) → IsSorted line_cmp (changes rows a n) }
{}

/// Each end line names the earliest start line of its row that has no end line yet.
pub fn ends_name_first_open_start()
    ensures { (rows : ℕ → List Row) (n : ℕ) (done after : List Line) (t s : ℕ) (r : Row) →
        changes rows 0 n ≡ done ++ Ended t s r ∷ after → IsFirstOpen r done t s }
{}

/// What is written is final: where the rows below an instant are the same as multisets, the changes below it are the same, line
/// by line.
pub fn same_rows_same_changes()
    ensures { (f g : ℕ → List Row) (c : ℕ) → ((t : ℕ) → t < c → SameBag (f t) (g t)) → (a n : ℕ) →
        a + n ≤ c → changes f a n ≡ changes g a n }
{}

/// The changes of some instants are those of the first of them, followed by those of the others.
pub fn changes_come_in_parts()
    ensures { (rows : ℕ → List Row) (a n m : ℕ) →
        changes rows a (n + m) ≡ changes rows a n ++ changes rows (a + n) m }
{}

/// Instants at which the rows are those of the instant before, as multisets, have no lines.
pub fn quiet_instants_change_nothing()
    ensures { (rows : ℕ → List Row) (a n : ℕ) →
        ((t : ℕ) → a ≤ t → t < a + n → SameBag (before rows t) (rows t)) → changes rows a n ≡ [] }
{}
