// The trait of operators: a step of a node over new edges, and what it keeps, saved and loaded.
ghost use Rattle.std.specs.Prelude.{◌≡◌, ℕ, ◌-◌, ◌^◌, ◌≤◌, true, false, is_err, Option, Some};
ghost use Rattle.std.specs.Prelude.{None, IsErr, List, [], length, min, IfOk, IfErr, OnOk, OnErr};
ghost use Rattle.tw_rows.specs.Texts.{BeginsWith};
ghost use Rattle.tw_rows.specs.declared.edge.Edge.{Edge};
ghost use Rattle.edge_stream.specs.Listing.{cells_of};
ghost use Rattle.edge_stream.specs.declared.saved.SavedEntry.{SavedEntry};
ghost use Rattle.edge_stream.specs.declared.saved.PartRow.{PartRow};
ghost use Rattle.plan_laws.specs.Undefined.{is_group};
ghost use Rattle.plan_laws.specs.Places.{AreDistinct};
ghost use Rattle.edge_stream.specs.Standing.{Standing, IsLike, IsFresh, Implies, StandsFor, AreStoredAs, most_entries};
ghost use Rattle.edge_stream.specs.Steps.{AnswersBetween, StaysKept, IsFirstUndefined};

use crate::{EdgeList, LoadFault, PartRow, Saved, StepFault};
use batch::Pools;
use tw_rows::{Memory, Time};

// Edges and punctuations, and operators that take edges on up to two sides and answer edges between their last closing and
// their new one, are Trill's. Of our profile are: a step takes all edges up to a punctuation at once and closes both sides;
// the lists come in the order of their sync times; and an operator tells what it keeps as entries, from which another one
// goes on.

/// A node of a plan at work. It takes the edges of its children step by step, and answers those of its node. What it keeps
/// is told by a relation between it, a table of texts, the edges that came in on both sides, and those that it answered.
pub trait Operator: Send + Drop {
    /// It can be what is left after the edges `left` and `right` came in and `out` was answered, with places in the table.
    ghost keeps: { Self → List (List ℕ) → List Edge → List Edge → List Edge → Type 0 };

    /// It stands as it was made.
    ghost is_opening: { Self → Type 0 };

    /// Its node, the times up to which its sides were closed at the last step, how its columns are stored, and whether a step
    /// failed.
    ghost standing: { Self → Standing };

    /// Saved entries can be the state of an operator like this one whose sides are closed up to the two times.
    ghost sound: { Self → List SavedEntry → ℕ → ℕ → Type 0 };

    /// Such entries are what it keeps after edges came in and were answered, as in `keeps`.
    ghost resumes: { Self → List SavedEntry → ℕ → ℕ → List (List ℕ) →
        List Edge → List Edge → List Edge → Type 0 };

    /// How many entries it keeps.
    ghost entries: { Self → ℕ };

    /// Whose row the cells of a part of its entries are.
    ghost row_of_part: { ℕ → Option PartRow };

    /// Takes the new edges of both sides, which are closed up to the two times, and answers what its node has to tell up to
    /// its new closing. After a failure no further step may be taken.
    fn step(
        &mut self,
        pools: &mut Pools,
        left: EdgeList,
        right: EdgeList,
        left_to: Time,
        right_to: Time,
    ) -> Result<EdgeList, StepFault>
        requires works { (standing self.old).has_failed ≡ false }
        requires left_rises { (standing self.old).left_closed ≤ left_to }
        requires right_rises { (standing self.old).right_closed ≤ right_to }
        requires left_kinds { cells_of left ≡ (standing self.old).left_kinds }
        requires right_kinds { cells_of right ≡ (standing self.old).right_kinds }
        requires left_capacity { left.capacity ≡ (standing self.old).batch_rows }
        requires right_capacity { right.capacity ≡ (standing self.old).batch_rows }
        requires capacity { pools.old.capacity ≡ (standing self.old).batch_rows }
        ensures kept { IfOk result (λ answer. StaysKept (standing self.old) (keeps self.old)
            (keeps self.new) left.edges right.edges answer.edges) }
        ensures between { IfOk result (λ answer. AnswersBetween (standing self.old)
            left.edges right.edges left_to right_to answer.edges) }
        ensures defined { OnOk result (IsFirstUndefined (standing self.old) (keeps self.old)
            left.edges left_to right_to None) }
        ensures overflow { IfErr result (λ fault. (time : ℕ) → fault ≡ StepFault.Overflow time →
            IsFirstUndefined (standing self.old) (keeps self.old) left.edges left_to right_to
            (Some time)) }
        ensures group { IfErr result (λ fault. (time : ℕ) → fault ≡ StepFault.Overflow time →
            is_group (standing self.old).node ≡ true) }
        ensures kinds { IfOk result (λ answer. cells_of answer ≡ (standing self.old).own_kinds) }
        ensures capacity { IfOk result (λ answer.
            answer.capacity ≡ (standing self.old).batch_rows) }
        ensures pools { pools.new.capacity ≡ pools.old.capacity }
        ensures limit { pools.new.limit ≡ pools.old.limit }
        ensures left_to { OnOk result ((standing self.new).left_closed ≡ left_to) }
        ensures right_to { OnOk result ((standing self.new).right_closed ≡ right_to) }
        ensures failed { (standing self.new).has_failed ≡ is_err result }
        ensures like { IsLike (standing self.old) (standing self.new) };

    /// How many entries it keeps, or the greatest number that there is room for.
    fn held(&self) -> u64
        ensures { result ≡ min (entries self.now) (2 ^ 64 - 1) };

    /// Whether a step failed.
    fn failed(&self) -> bool
        ensures { result ≡ (standing self.now).has_failed };

    /// What it keeps, as entries, and no more of them than it keeps.
    fn save(&self) -> Result<Saved, Memory>
        requires { (standing self.now).has_failed ≡ false }
        ensures few { IfOk result (λ saved. length saved ≤ entries self.now) }
        ensures sound { IfOk result (λ saved.
            sound self.now saved (standing self.now).left_closed (standing self.now).right_closed) }
        ensures resumes { IfOk result (λ saved.
            Implies (keeps self.now) (resumes self.now saved (standing self.now).left_closed
            (standing self.now).right_closed)) };

    /// Takes up what was saved, with sides that are closed up to the two times. After a fault it stands as it was made.
    fn load(&mut self, saved: &Saved, left_to: Time, right_to: Time) -> Result<(), LoadFault>
        requires { is_opening self.old }
        ensures resumed { OnOk result (
            Implies (resumes self.old saved.now left_to right_to) (keeps self.new)) }
        ensures sound { OnOk result (sound self.old saved.now left_to right_to) }
        ensures refused { IfErr result (λ fault. fault ≡ LoadFault.NotState →
            sound self.old saved.now left_to right_to → ⊥) }
        ensures left_to { OnOk result ((standing self.new).left_closed ≡ left_to) }
        ensures right_to { OnOk result ((standing self.new).right_closed ≡ right_to) }
        ensures works { OnOk result ((standing self.new).has_failed ≡ false) }
        ensures opening { OnErr result (is_opening self.new) }
        ensures like { IsLike (standing self.old) (standing self.new) };

    /// Whose row the cells of a part are. It has no other parts.
    fn part_row(part: u64) -> Option<PartRow>
        ensures { result ≡ row_of_part part };

    /// What holds of every operator. As it is made it keeps nothing, of no edges, and works. What it answered stands, read,
    /// for the events of its node, of the rows that are read of what came in. A table that grows changes nothing of what it
    /// keeps. It keeps no more entries than its node may. Entries that resume edges are sound. Each entry of a sound state
    /// has cells of the row of its part. A call does nothing but tell a proof of this.
    fn laws()
        ensures fresh { (s : Self) → is_opening s → IsFresh (standing s) }
        ensures opens { (s : Self) (texts : List (List ℕ)) → is_opening s → keeps s texts [] [] [] }
        ensures stands { (s : Self) (texts : List (List ℕ)) (hl hr out : List Edge) →
            AreDistinct texts → keeps s texts hl hr out → StandsFor (standing s) texts hl hr out }
        ensures grows { (s : Self) (new old : List (List ℕ)) (hl hr out : List Edge) →
            BeginsWith new old → keeps s old hl hr out → keeps s new hl hr out }
        ensures bounded { (s : Self) (texts : List (List ℕ)) (hl hr out : List Edge) →
            keeps s texts hl hr out → entries s ≤ most_entries (standing s) hl hr }
        ensures resumes_sound { (s : Self) (saved : List SavedEntry) (x y : ℕ)
            (texts : List (List ℕ)) (hl hr out : List Edge) → resumes s saved x y texts hl hr out →
            sound s saved x y }
        ensures rows { (s : Self) (saved : List SavedEntry) (x y : ℕ) →
            sound s saved x y → AreStoredAs row_of_part (standing s) saved };
}
