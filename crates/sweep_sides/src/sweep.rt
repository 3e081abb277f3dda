// The trait of sweeps: what a node keeps of its sides, and how it takes new edges in.
ghost use Rattle.std.specs.Prelude.{◌≡◌, ℕ, ◌-◌, ◌^◌, ◌≤◌, ◌++◌, false, List, [], map, length, min, Option, IfOk, IfErr, OnOk, OnErr};
ghost use Rattle.tw_rows.specs.Kinds.{cell_kind_of};
ghost use Rattle.tw_rows.specs.Instant.{inf};
ghost use Rattle.tw_rows.specs.declared.edge.Edge.{Edge};
ghost use Rattle.tw_rows.specs.declared.kind.CellKind.{CellKind};
ghost use Rattle.edge_history.specs.Balance.{Told};
ghost use Rattle.edge_history.specs.History.{CellEvent};
ghost use Rattle.edge_history.specs.Order.{IsHistory};
ghost use Rattle.edge_stream.specs.Listing.{cells_of};
ghost use Rattle.edge_stream.specs.declared.saved.SavedEntry.{SavedEntry};
ghost use Rattle.edge_stream.specs.declared.saved.PartRow.{PartRow};
ghost use Rattle.plan_model.specs.declared.node.Node.{Node};
ghost use Rattle.plan_model.specs.IsPlan.{node_kinds};
ghost use Rattle.plan_model.specs.Meaning.{node_closes};
ghost use Rattle.plan_model.specs.Nodes.{node_in};
ghost use Rattle.plan_laws.specs.Undefined.{is_group};
ghost use Rattle.plan_laws.specs.Keeping.{plain_cells};
ghost use Rattle.plan_laws.specs.Readings.{has_expressions};
ghost use Rattle.edge_stream.specs.Standing.{Standing, AreStoredAs, may_keep};
ghost use Rattle.sweep_sides.specs.Sweeping.{AreStored, told_events, ComeOn, HasSwept};

use edge_stream::{EdgeList, LoadFault, PartRow, Saved};
use tw_rows::{Edge, Kind, Memory, Time};

/// What a node keeps of its sides, swept up to a time: it takes the new edges of both, and tells what happens to the node's
/// events up to a later time. `Swept` makes an operator of it.
pub trait Sweep: Drop {
    /// The node whose events it tells.
    ghost node: { Self → Node };

    /// It can be what is left, swept up to the time, after edges came in on the left and on the right and some were told.
    ghost keeps: { Self → ℕ → List Edge → List Edge → List Edge → Type 0 };

    /// What it keeps of both sides is stored as these columns are, began before the time or waits from it on.
    ghost fits: { List CellKind → List CellKind → ℕ → Self → Type 0 };

    /// It keeps nothing.
    ghost is_empty: { Self → Type 0 };

    /// How many entries it keeps.
    ghost entries: { Self → ℕ };

    /// Saved entries can be what such a sweep with such columns keeps, swept up to the time.
    ghost sound: { Self → List CellKind → List CellKind → ℕ → List SavedEntry → Type 0 };

    /// The same, as far as it can be told without memory.
    ghost stored: { Self → List CellKind → List CellKind → ℕ → List SavedEntry → Type 0 };

    /// Such entries are what it keeps after edges came in and were told, as in `keeps`.
    ghost resumes: { Self → List SavedEntry → ℕ → List Edge → List Edge → List Edge → Type 0 };

    /// Whose row the cells of a part of its entries are.
    ghost row_of_part: { ℕ → Option PartRow };

    /// The closing of the node, where its sides are closed up to these times.
    fn closes(&self, left_to: Time, right_to: Time) -> Time
        ensures { result ≡ node_closes (node self.now) left_to right_to };

    /// Takes the new edges of both sides in, and tells what happens to the events from one closing of the node up to another.
    fn advance(
        &mut self,
        left: &EdgeList,
        right: &EdgeList,
        from: Time,
        to: Time,
    ) -> Result<Vec<Edge>, Memory>
        requires rises { from ≤ to }
        requires low { to ≤ inf }
        ensures kept { IfOk result (λ told. (x y : ℕ) (hl hr out : List Edge) →
            from ≡ node_closes (node self.old) x y → keeps self.old from hl hr out →
            ComeOn x y hl hr left.now.edges right.now.edges →
            HasSwept (node self.old) (keeps self.new) from to (hl ++ left.now.edges)
            (hr ++ right.now.edges) out told.items) }
        ensures fits { OnOk result (fits (cells_of left.now) (cells_of right.now) from self.old →
            fits (cells_of left.now) (cells_of right.now) to self.new) }
        ensures node { node self.new ≡ node self.old };

    /// How many entries it keeps, or the greatest number that there is room for.
    fn held(&self) -> u64
        ensures { result ≡ min (entries self.now) (2 ^ 64 - 1) };

    /// What it keeps, as entries, and no more of them than it keeps.
    fn save(&self) -> Result<Saved, Memory>
        ensures few { IfOk result (λ saved. length saved ≤ entries self.now) }
        ensures sound { IfOk result (λ saved. (l r : List CellKind) (to : ℕ) →
            ∥ fits l r to self.now ∥₁ → sound self.now l r to saved) }
        ensures resumes { IfOk result (λ saved. (to : ℕ) (hl hr out : List Edge) →
            keeps self.now to hl hr out → resumes self.now saved to hl hr out) };

    /// Takes up what was saved, with columns of these kinds, swept up to the time. After a fault it keeps nothing.
    fn load(
        &mut self,
        saved: &Saved,
        left_kinds: &[Kind],
        right_kinds: &[Kind],
        to: Time,
    ) -> Result<(), LoadFault>
        requires { is_empty self.old }
        ensures resumed { OnOk result ((hl hr out : List Edge) →
            resumes self.old saved.now to hl hr out → keeps self.new to hl hr out) }
        ensures sound { OnOk result (sound self.old (map cell_kind_of left_kinds.now)
            (map cell_kind_of right_kinds.now) to saved.now) }
        ensures fits { OnOk result (
            fits (map cell_kind_of left_kinds.now) (map cell_kind_of right_kinds.now) to self.new) }
        ensures refused { IfErr result (λ fault. fault ≡ LoadFault.NotState →
            sound self.old (map cell_kind_of left_kinds.now)
            (map cell_kind_of right_kinds.now) to saved.now → ⊥) }
        ensures memory { IfErr result (λ fault. fault ≡ LoadFault.Memory →
            stored self.old (map cell_kind_of left_kinds.now)
            (map cell_kind_of right_kinds.now) to saved.now) }
        ensures empty { OnErr result (is_empty self.new) }
        ensures node { node self.new ≡ node self.old };

    /// Whose row the cells of a part are. It has no other parts.
    fn part_row(part: u64) -> Option<PartRow>
        ensures { result ≡ row_of_part part };

    /// What holds of every sweep. Of no edges it keeps nothing, which fits any time. The edges that it told tell the events of
    /// its node, whose rows are stored as the node's columns are. Its node has no expressions, and is defined at each instant.
    /// It keeps no more entries than its node may. Each entry of a sound state has cells of the row of its part. A call does
    /// nothing but tell a proof of this.
    fn laws()
        ensures opens { (s : Self) → is_empty s → keeps s (node_closes (node s) 0 0) [] [] [] }
        ensures empty { (s : Self) (l r : List CellKind) (to : ℕ) → is_empty s → fits l r to s }
        ensures tells { (s : Self) (to : ℕ) (hl hr out : List Edge) → keeps s to hl hr out →
            Told to out (told_events (node s) hl hr) }
        ensures cells { (s : Self) (l r : List CellKind) (a b : List CellEvent) → AreStored l a →
            AreStored r b → AreStored (node_kinds (node s) l r) (node_in plain_cells (node s) a b) }
        ensures plain { (s : Self) → has_expressions (node s) ≡ false }
        ensures defined { (s : Self) → is_group (node s) ≡ false }
        ensures bounded { (s : Self) (x y : ℕ) (hl hr out : List Edge) → IsHistory hl →
            IsHistory hr → keeps s (node_closes (node s) x y) hl hr out →
            entries s ≤ may_keep (node s) x y hl hr }
        ensures rows { (s : Self) (st : Standing) (saved : List SavedEntry) (to : ℕ) →
            sound s st.left_kinds st.right_kinds to saved → AreStoredAs row_of_part st saved };
}
