// The laws of lists of edges that are made of others.
ghost use Rattle.std.specs.Prelude.{◌≡◌, ◌↔◌, ℕ, Bool, List, ◌++◌};
ghost use Rattle.tw_rows.specs.Bag.{SameBag};
ghost use Rattle.tw_rows.specs.declared.cells.Datum.{Datum};
ghost use Rattle.tw_rows.specs.declared.edge.Edge.{Edge};
ghost use Rattle.edge_history.specs.Order.{Rises, failing, is_real, IsPaired, IsHistory};
ghost use Rattle.edge_history.specs.History.{CellEvent, of, StandsBelow};
ghost use Rattle.edge_history.specs.Balance.{AreEventsOf};
ghost use Rattle.edge_history.specs.Made.{edges_where, events_where, edges_with, events_with};

/// Edges with real times are paired exactly where they have events by balance.
pub fn paired_edges_have_events()
    ensures { (h : List Edge) → failing is_real h ≡ 0 →
        IsPaired h ↔ ((events : List CellEvent) × AreEventsOf h events) }
{}

/// Of the same edges in another order the events are the same.
pub fn order_of_edges_is_free()
    ensures balance { (h other : List Edge) (events : List CellEvent) → SameBag h other →
        AreEventsOf h events → AreEventsOf other events }
    ensures plain { (h other : List Edge) → IsHistory h → IsHistory other → SameBag h other →
        SameBag (of h) (of other) }
    ensures stands { (c : ℕ) (h other : List Edge) (events : List CellEvent) → SameBag h other →
        Rises 0 other → StandsBelow c h events → StandsBelow c other events }
{}

/// The edges of two lists, in order, stand for the events of both.
pub fn both_lists_stand_for_both()
    ensures events { (h other : List Edge) (a b : List CellEvent) → AreEventsOf h a →
        AreEventsOf other b → AreEventsOf (h ++ other) (a ++ b) }
    ensures stands { (c : ℕ) (h other merged : List Edge) (a b : List CellEvent) →
        StandsBelow c h a → StandsBelow c other b → Rises 0 merged → SameBag merged (h ++ other) →
        StandsBelow c merged (a ++ b) }
{}

/// The edges whose rows pass a test stand for the events whose rows pass it.
pub fn tested_edges_stand_for_tested_events()
    ensures events { (test : List Datum → Bool) (h : List Edge) (a : List CellEvent) →
        AreEventsOf h a → AreEventsOf (edges_where test h) (events_where test a) }
    ensures stands { (test : List Datum → Bool) (c : ℕ) (h : List Edge) (a : List CellEvent) →
        StandsBelow c h a → StandsBelow c (edges_where test h) (events_where test a) }
{}

/// Edges with their rows replaced stand for the events with their rows replaced.
pub fn replaced_edges_stand_for_replaced_events()
    ensures events { (f : List Datum → List Datum) (h : List Edge) (a : List CellEvent) →
        AreEventsOf h a → AreEventsOf (edges_with f h) (events_with f a) }
    ensures stands { (f : List Datum → List Datum) (c : ℕ) (h : List Edge) (a : List CellEvent) →
        StandsBelow c h a → StandsBelow c (edges_with f h) (events_with f a) }
{}
