// The laws of runs.
ghost use Rattle.std.specs.Prelude.{◌≡◌, ℕ, ◌<◌, ◌≤◌, Bool, Option, option_to_list};
ghost use Rattle.tw_rows.specs.Instant.{inf};
ghost use Rattle.tw_rows.specs.Bag.{SameBag};
ghost use Rattle.tw_rows.specs.Event.{alive, AreEvents, cut};
ghost use Rattle.key_nodes.specs.Runs.{Tells, runs, AreMaximal, AreFalling};

/// At each instant below `n` the runs have the row that `f` gives there, or none where it gives none.
pub fn runs_have_the_rows<R>()
    ensures { (same_row : R → R → Bool) (f : ℕ → Option R) (n t : ℕ) →
        Tells same_row → t < n →
        SameBag (alive (runs same_row f n) t) (option_to_list (f t)) }
{}

/// The runs stand latest first, each after the one that is next in the list, and no run goes on from that one. So there
/// is one event for each maximal run.
pub fn runs_are_maximal<R>()
    ensures falling { (same_row : R → R → Bool) (f : ℕ → Option R) (n : ℕ) →
        AreFalling (runs same_row f n) }
    ensures apart { (same_row : R → R → Bool) (f : ℕ → Option R) (n : ℕ) →
        AreMaximal same_row (runs same_row f n) }
{}

/// What runs tell below `c` depends on the rows below `c` alone.
pub fn runs_depend_on_earlier_rows<R>()
    ensures { (same_row : R → R → Bool) (f g : ℕ → Option R) (c n : ℕ) → c ≤ n →
        ((t : ℕ) → t < c → f t ≡ g t) →
        cut c (runs same_row f n) ≡ cut c (runs same_row g n) }
{}

/// Runs have lifetimes that begin before they end, and end at infinity at the latest.
pub fn runs_have_lives<R>()
    ensures { (same_row : R → R → Bool) (f : ℕ → Option R) (n : ℕ) → n ≤ inf →
        AreEvents (runs same_row f n) }
{}
