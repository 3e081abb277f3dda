// The laws of queues.
ghost use Rattle.std.specs.Prelude.{◌≡◌, ◌<◌, ◌≤◌, ◌+◌, ℕ, suc, ℤ, Bool, false, List, flat_map};
ghost use Rattle.std.specs.List.{list_any};
ghost use Rattle.tw_rows.specs.Instant.{inf};
ghost use Rattle.tw_rows.specs.Bag.{SameBag, total};
ghost use Rattle.tw_rows.specs.declared.edge.Edge.{Edge};
ghost use Rattle.tw_rows.specs.Event.{alive, AreEvents};
ghost use Rattle.tw_rows.specs.declared.edge.HeldRow.{HeldRow};
ghost use Rattle.edge_history.specs.History.{CellEvent};
ghost use Rattle.edge_history.specs.Opens.{opens, bare, ended_rows, started_rows};
ghost use Rattle.key_nodes.specs.Tops.{top_rows};
ghost use Rattle.edge_history.specs.Balance.{news};
ghost use Rattle.key_nodes.specs.Runs.{Tells};
ghost use Rattle.key_nodes.specs.Groups.{distinct};
ghost use Rattle.key_nodes.specs.Coalesced.{how_often, rows_before, rows_below, coalesced};
ghost use Rattle.sweep_laws.specs.Queues.{Cells, open_starts, held_with, AreMoves, queue_told, queue_after};

/// The rows of coalesced events that are open just before an instant are those of the queues. The queues of the next instant are
/// made from those of this one and from any moves that lead there. What is told of the rows that moved is the news of the instant.
pub fn open_rows_are_queues()
    ensures opens { (same : Cells → Cells → Bool) (f : ℕ → List Cells) (t : ℕ) → t ≤ inf →
        SameBag (opens t (coalesced same f)) (flat_map
        (λ r. held_with r (open_starts same f r t)) (distinct same (rows_below f inf))) }
    ensures next { (same : Cells → Cells → Bool) (f : ℕ → List Cells) (t : ℕ) (ends starts : Cells →
        ℕ) → AreMoves same f t ends starts → (since : Cells → List ℕ) →
        ((r : Cells) → since r ≡ open_starts same f r t) → (r : Cells) →
        queue_after t ends starts since r ≡ open_starts same f r (suc t) }
    ensures told { (same : Cells → Cells → Bool) (f : ℕ → List Cells) (t : ℕ) (ends starts : Cells →
        ℕ) → Tells same → t < inf → AreMoves same f t ends starts → (since : Cells → List ℕ) →
        ((r : Cells) → since r ≡ open_starts same f r t) → (touched : List Cells) →
        ((r : Cells) → list_any (same r) touched ≡ false → ends r ≡ starts r) → (w : Edge → ℕ) →
        total w (flat_map (queue_told t ends starts since) (distinct same touched))
        ≡ total w (news t (suc t) (coalesced same f)) }
{}

/// Where no row comes to stand more or less often nothing is told, and the queues stay.
pub fn queues_stay()
    ensures told { (same : Cells → Cells → Bool) (f : ℕ → List Cells) (t : ℕ) → Tells same →
        t < inf → SameBag (f t) (rows_before f t) → (w : Edge → ℕ) →
        total w (news t (suc t) (coalesced same f)) ≡ 0 }
    ensures same { (same : Cells → Cells → Bool) (f : ℕ → List Cells) (t : ℕ) →
        SameBag (f t) (rows_before f t) → (r : Cells) →
        open_starts same f r (suc t) ≡ open_starts same f r t }
{}

/// The edges of an instant are the moves of a Coalesce: what they end and start, row by row.
pub fn edges_are_moves()
    ensures { (same : Cells → Cells → Bool) (a : List CellEvent) (t : ℕ) (now : List Edge) →
        AreEvents a → SameBag now (news t (suc t) a) →
        AreMoves same (alive a) t (λ r. how_often same r (bare (ended_rows now)))
        (λ r. how_often same r (bare (started_rows now))) }
{}

/// What the keys of a Top lost and won at an instant are its moves, where the rows that are shown before and after it are the top
/// rows of those that are kept.
pub fn shown_rows_are_moves()
    ensures { (same : Cells → Cells → Bool) (meets : Cells → Cells → Bool) (value : Cells → ℤ)
        (count t : ℕ) (a : List CellEvent) (rows0 rows1 : List HeldRow) →
        SameBag rows0 (opens t a) → SameBag rows1 (opens (suc t) a) →
        (shown0 shown1 lost won : List Cells) →
        SameBag shown0 (top_rows meets value count (bare rows0)) →
        SameBag shown1 (top_rows meets value count (bare rows1)) →
        ((w : Cells → ℕ) → total w shown1 + total w lost ≡ total w shown0 + total w won) →
        AreMoves same (λ u. top_rows meets value count (alive a u)) t (λ r. how_often same r lost)
        (λ r. how_often same r won) }
{}
