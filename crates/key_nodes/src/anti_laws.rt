// The laws of anti-joins.
ghost use Rattle.std.specs.Prelude.{◌≡◌, ℕ, ◌<◌, min, Bool, List};
ghost use Rattle.tw_rows.specs.Instant.{inf};
ghost use Rattle.tw_rows.specs.Bag.{SameBag};
ghost use Rattle.tw_rows.specs.Event.{Event, alive, AreEvents, Known};
ghost use Rattle.key_nodes.specs.Runs.{Tells};
ghost use Rattle.key_nodes.specs.Antis.{alone_rows, alone};

/// Snapshots: at each instant the events of an anti-join that are alive are the left rows alive that meet no right row
/// alive, and these do not depend on the order of the rows.
pub fn antis_have_the_rows<L, R>()
    ensures alive { (same_row : L → L → Bool) (meets : L → R → Bool) → Tells same_row →
        (left : List (Event L)) (right : List (Event R)) (t : ℕ) → t < inf →
        SameBag (alive (alone same_row meets left right) t)
        (alone_rows meets (alive left t) (alive right t)) }
    ensures order { (meets : L → R → Bool) (left left2 : List L) (right right2 : List R) →
        SameBag left left2 → SameBag right right2 →
        SameBag (alone_rows meets left right) (alone_rows meets left2 right2) }
{}

/// Causality: what is known of the events of an anti-join below the lesser of `x` and `y` depends only on what is known
/// of the left events below `x` and of the right events below `y`.
pub fn antis_are_causal<L, R>()
    ensures { (same_row : L → L → Bool) (meets : L → R → Bool) →
        (x y : ℕ) (a c : List (Event L)) (b d : List (Event R)) → Known x a c → Known y b d →
        Known (min x y) (alone same_row meets a b) (alone same_row meets c d) }
{}

/// The events of an anti-join have lifetimes that begin before they end, and end at infinity at the latest.
pub fn antis_have_lives<L, R>()
    ensures { (same_row : L → L → Bool) (meets : L → R → Bool)
        (left : List (Event L)) (right : List (Event R)) →
        AreEvents (alone same_row meets left right) }
{}
