// The laws of follows.
ghost use Rattle.std.specs.Prelude.{◌≡◌, ◌<◌, ◌≤◌, ℕ, nat_eq, cond, List, map, filter, flat_map};
ghost use Rattle.tw_rows.specs.Event.{AreEvents};
ghost use Rattle.tw_rows.specs.declared.edge.Edge.{Edge};
ghost use Rattle.edge_history.specs.Order.{Rises};
ghost use Rattle.edge_history.specs.Ahead.{ToldAhead};
ghost use Rattle.tw_rows.specs.Instant.{inf};
ghost use Rattle.tw_rows.specs.Bag.{total, SameBag};
ghost use Rattle.edge_history.specs.History.{CellEvent};
ghost use Rattle.key_nodes.specs.Follows.{followed};
ghost use Rattle.sweep_laws.specs.Meeting.{RowTest, RowPair};
ghost use Rattle.sweep_laws.specs.Waits.{waiting, matches_of, as_interval, starts_below};

/// The followed events that start at an instant are those that the rows that wait just before it give with the right events
/// that start there.
pub fn next_rows_are_matched()
    ensures { (meets : RowTest) (pair : RowPair) (within t : ℕ) (a b : List CellEvent) → t < inf →
        (v : CellEvent → ℕ) → total (λ e. cond (nat_eq e.start t) (v e) 0)
        (followed meets pair within a b) ≡ total v
        (flat_map (matches_of meets pair within t b) (waiting meets within a b t)) }
{}

/// Where a node answers an interval edge for each of its events that start below the closing, in order, it told what happens to
/// them there, and their ends ahead. So nothing waits for an end.
pub fn intervals_tell_ahead()
    ensures { (c : ℕ) (out : List Edge) (events : List CellEvent) → c ≤ inf → AreEvents events →
        Rises 0 out → SameBag out (map as_interval (filter (starts_below c) events)) →
        ToldAhead c out events }
{}
