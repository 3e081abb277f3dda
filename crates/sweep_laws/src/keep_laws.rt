// The laws of what is kept at a time while more of the events becomes known.
ghost use Rattle.std.specs.Prelude.{ℕ, ◌≤◌, Bool, Option, List};
ghost use Rattle.tw_rows.specs.Bag.{SameBag};
ghost use Rattle.tw_rows.specs.Event.{Known};
ghost use Rattle.tw_rows.specs.declared.cells.Datum.{Datum};
ghost use Rattle.tw_rows.specs.declared.edge.HeldRow.{HeldRow};
ghost use Rattle.edge_history.specs.History.{CellEvent};
ghost use Rattle.edge_history.specs.Opens.{opens};
ghost use Rattle.key_nodes.specs.Clips.{clipped};
ghost use Rattle.sweep_laws.specs.Meeting.{RowTest};
ghost use Rattle.sweep_laws.specs.Sessioning.{Sessioning};
ghost use Rattle.sweep_laws.specs.Antijoining.{Judging};

/// What is kept of sessions, clips and anti-joins at a time is right for all events of which the same is known below it: the
/// edges that come later do not touch it.
pub fn kept_rows_stay_right<K>()
    ensures sessions { (key : List Datum → K) (same : K → K → Bool) (timeout c : ℕ)
        (a b : List CellEvent) (rows : List HeldRow) (last : K → Option ℕ) → 1 ≤ timeout →
        Known c a b → Sessioning key same timeout a c rows last →
        Sessioning key same timeout b c rows last }
    ensures clips { (meets : RowTest) (c : ℕ) (a a2 b b2 : List CellEvent) (rows : List HeldRow) →
        Known c a a2 → Known c b b2 → SameBag rows (opens c (clipped meets a b)) →
        SameBag rows (opens c (clipped meets a2 b2)) }
    ensures antis { (key : List Datum → K) (meets : RowTest) (c : ℕ) (a a2 b b2 : List CellEvent)
        (left right : List HeldRow) (status : K → Option ℕ) → Known c a a2 → Known c b b2 →
        Judging key meets a b c left right status → Judging key meets a2 b2 c left right status }
{}
