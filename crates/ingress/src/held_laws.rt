// The laws of edges that are held until a punctuation, and of those that were given.
ghost use Rattle.std.specs.Prelude.{◌≡◌, ℕ, true, ◌<◌, ◌≤◌, List, [], ◌∷◌, ◌++◌};
ghost use Rattle.tw_rows.specs.Instant.{inf};
ghost use Rattle.tw_rows.specs.Bag.{SameBag};
ghost use Rattle.tw_rows.specs.declared.cells.Datum.{Datum};
ghost use Rattle.tw_rows.specs.declared.edge.Edge.{Edge};
ghost use Rattle.edge_history.specs.Order.{failing, many, is_real, is_below, is_from, starts_it, Rises};
ghost use Rattle.edge_history.specs.History.{CellEvent, StandsBelow};
ghost use Rattle.edge_history.specs.Balance.{given as event_of, taken};
ghost use Rattle.ingress.specs.Held.{IsHeld, start_of, open_row};

/// The edges that were given stand for the rows below the time up to which all were given.
pub fn given_edges_stand()
    ensures { (p : ℕ) (given held : List Edge) (rows : List CellEvent) → p ≤ inf →
        IsHeld p given held rows → StandsBelow p given rows }
{}

/// The held edges follow the rows: a new row or an end puts an edge, and a row whose lifetime turns out to be empty takes its
/// start edge out again, which is there. The order of what is held is free.
pub fn held_edges_follow_the_rows()
    ensures none { IsHeld 0 [] [] [] }
    ensures put { (p : ℕ) (given held more : List Edge) (edge : Edge)
        (rows after : List CellEvent) → IsHeld p given held rows → SameBag more (edge ∷ held) →
        is_real edge ≡ true → p ≤ edge.sync → SameBag (after ++ taken edge)
        (rows ++ event_of edge ∷ []) → IsHeld p given more after }
    ensures taken_out { (p : ℕ) (given held fewer : List Edge) (cells : List Datum) (start : ℕ)
        (rows after : List CellEvent) → start < inf → IsHeld p given held rows →
        SameBag (start_of cells start ∷ fewer) held → SameBag (open_row cells start ∷ after) rows →
        IsHeld p given fewer after }
    ensures there { (p : ℕ) (given held : List Edge) (cells : List Datum) (start : ℕ)
        (rows others : List CellEvent) → p ≤ start → IsHeld p given held rows →
        SameBag (open_row cells start ∷ others) rows → many (starts_it cells start) held ≡ 0 → ⊥ }
    ensures same { (p : ℕ) (given held alike : List Edge) (rows after : List CellEvent) →
        IsHeld p given held rows → SameBag alike held → SameBag after rows →
        IsHeld p given alike after }
{}

/// At a punctuation q the held edges below q are given, in order, and the others stay.
pub fn held_edges_are_given_in_order()
    ensures { (p q : ℕ) (given held out rest : List Edge) (rows : List CellEvent) → p ≤ q →
        IsHeld p given held rows → SameBag held (out ++ rest) → Rises 0 out →
        failing (is_below q) out ≡ 0 → failing (is_from q) rest ≡ 0 →
        IsHeld q (given ++ out) rest rows }
{}
