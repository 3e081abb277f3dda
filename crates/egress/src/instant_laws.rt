// The laws of what an instant shows.
ghost use Rattle.std.specs.Prelude.{◌≡◌, ℕ, suc, ◌+◌, ◌<◌, ◌≤◌, List, [], ◌++◌, map};
ghost use Rattle.tw_rows.specs.Bag.{SameBag};
ghost use Rattle.tw_rows.specs.Event.{AreEvents, alive};
ghost use Rattle.tw_rows.specs.Rows.{Row};
ghost use Rattle.tw_rows.specs.Cells.{read_cells};
ghost use Rattle.tw_rows.specs.declared.edge.Edge.{Edge};
ghost use Rattle.edge_history.specs.History.{CellEvent};
ghost use Rattle.edge_history.specs.Balance.{news};
ghost use Rattle.edge_history.specs.Opens.{bare, ended_rows, started_rows};
ghost use Rattle.plan_laws.specs.Places.{read_events};
ghost use Rattle.plan_model.specs.Opens.{how_often, before};
ghost use Rattle.plan_model.specs.Changes.{changes_at};
ghost use Rattle.tw_rows.specs.declared.kind.Kind.{Kind};
ghost use Rattle.egress.specs.Instants.{instant_lines, open_after, AreMoves, AreOpen, AreTouched};
ghost use Rattle.egress.specs.Print.{print};
ghost use Rattle.egress.specs.Reached.{Reached};

/// An instant shows the rows that it touches, by their ends, their starts and what is open of them; no other row is
/// looked at. What is open after it follows row by row.
pub fn an_instant_shows_the_rows_it_touches()
    ensures lines { (rows : ℕ → List Row) (t : ℕ) (ends starts : Row → ℕ) (since : Row → List ℕ)
        (touched : List Row) → AreMoves rows t ends starts → AreOpen rows t since →
        AreTouched ends starts touched → changes_at rows t
        ≡ instant_lines ends starts t since touched }
    ensures after { (rows : ℕ → List Row) (t : ℕ) (ends starts : Row → ℕ) (since : Row → List ℕ) →
        AreMoves rows t ends starts → AreOpen rows t since →
        AreOpen rows (suc t) (open_after ends starts t since) }
{}

/// What is open stays where the rows are those of the instant before, as multisets.
pub fn quiet_instants_keep_what_is_open()
    ensures { (rows : ℕ → List Row) (a n : ℕ) (since : Row → List ℕ) →
        ((t : ℕ) → a ≤ t → t < a + n → SameBag (before rows t) (rows t)) →
        AreOpen rows a since → AreOpen rows (a + n) since }
{}

/// The edges of one instant, read through the table, say how often each row ends and starts there.
pub fn edges_of_an_instant_move_rows()
    ensures { (texts : List (List ℕ)) (events : List CellEvent) (t : ℕ) (now : List Edge) →
        AreEvents events → SameBag now (news t (suc t) events) →
        AreMoves (alive (read_events texts events)) t
        (λ r. how_often r (map (read_cells texts) (bare (ended_rows now))))
        (λ r. how_often r (map (read_cells texts) (bare (started_rows now)))) }
{}

/// A sweep begins with what is open, goes on over each instant that it shows, and over instants at which the rows stay.
pub fn a_sweep_goes_from_instant_to_instant()
    ensures first { (rows : ℕ → List Row) (kinds : List Kind) (a : ℕ) (since : Row → List ℕ) →
        AreOpen rows a since → Reached rows kinds a a since [] }
    ensures next { (rows : ℕ → List Row) (kinds : List Kind) (a t : ℕ) (since since2 : Row → List ℕ)
        (text text2 : List ℕ) → Reached rows kinds a t since text →
        text2 ≡ text ++ print kinds (changes_at rows t) → AreOpen rows (suc t) since2 →
        Reached rows kinds a (suc t) since2 text2 }
    ensures later { (rows : ℕ → List Row) (kinds : List Kind) (a t u : ℕ) (since : Row → List ℕ)
        (text : List ℕ) → t ≤ u → ((v : ℕ) → t ≤ v → v < u → SameBag (before rows v) (rows v)) →
        Reached rows kinds a t since text → Reached rows kinds a u since text }
{}
