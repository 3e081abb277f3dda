// The laws of undefined groups.
ghost use Rattle.std.specs.Prelude.{◌≡◌, ◌↔◌, ℕ, ◌<◌, ◌≤◌, Bool, false, IsTrue, Some, None, List, length, slice_get, All};
ghost use Rattle.tw_rows.specs.Bag.{SameBag};
ghost use Rattle.tw_rows.specs.Event.{Event, alive, Known};
ghost use Rattle.plan_model.specs.declared.agg.Agg.{Agg};
ghost use Rattle.plan_model.specs.declared.node.Node.{Node};
ghost use Rattle.plan_model.specs.Groups.{is_undefined};
ghost use Rattle.plan_model.specs.Keys.{value_ops};
ghost use Rattle.plan_model.specs.Meaning.{Sources, closes, snapshots, IsOrdered, IsLevelled};
ghost use Rattle.plan_model.specs.RowOps.{RowOps, key_in, rows_of_key_in, is_undefined_in};
ghost use Rattle.plan_laws.specs.Undefined.{IsDefinedGroup, is_group, undefined_over, left_rows};
ghost use Rattle.plan_laws.specs.Undefined.{undefined_at, first_below, first_undefined, Overflow};
ghost use Rattle.plan_laws.specs.Undefined.{overflow};

/// The groups of some rows are all defined exactly where each of them has at most 2^62 rows, and each of its sums is at
/// least -2^63 and at most 2^63 - 1. A node that is no group is never undefined.
pub fn groups_are_undefined<X>()
    ensures groups { (ops : RowOps X) (key : List ℕ) (aggs : List Agg) (rows : List (List X)) →
        (is_undefined_in ops key aggs rows ≡ false) ↔ All
        (λ row. IsDefinedGroup ops aggs (rows_of_key_in ops key (key_in ops key row) rows)) rows }
    ensures others { (ops : RowOps X) (n : Node) (rows : List (List X)) → is_group n ≡ false →
        undefined_over ops n rows ≡ false }
{}

/// A node of a plan is undefined at an instant where it is so over the rows that it then reads: a group over those of
/// its child, and no other node. A number past the nodes is no node's.
pub fn undefined_at_is()
    ensures node { (source : Sources) (nodes : List Node) (i t : ℕ) (n : Node) →
        slice_get nodes i ≡ Some n → undefined_at source nodes i t
        ≡ undefined_over value_ops n (left_rows source nodes t n) }
    ensures group { (source : Sources) (nodes : List Node) (i child t : ℕ) (key : List ℕ)
        (aggs : List Agg) → slice_get nodes i ≡ Some (Node.Group child key aggs) →
        undefined_at source nodes i t ≡ is_undefined key aggs (snapshots source nodes child t) }
    ensures none { (source : Sources) (nodes : List Node) (i t : ℕ) → slice_get nodes i ≡ None →
        undefined_at source nodes i t ≡ false }
{}

/// Of the instants below `c` at which a test is true the least is found, and none exactly where there is none.
pub fn first_undefined_is()
    ensures some { (p : ℕ → Bool) (c t : ℕ) → first_below p c ≡ Some t →
        (t < c) × IsTrue (p t) × ((u : ℕ) → u < t → p u ≡ false) }
    ensures none { (p : ℕ → Bool) (c : ℕ) → first_below p c ≡ None → (u : ℕ) → u < c → p u ≡ false }
    ensures order { (p q : ℕ → Bool) (c : ℕ) → ((t : ℕ) → t < c → p t ≡ q t) →
        first_below p c ≡ first_below q c }
{}

/// Whether a node is undefined depends on the multiset of the rows alone, and before a time on what is known below it of
/// the events that have them.
pub fn undefined_nodes_are_alike<X>()
    ensures rows { (ops : RowOps X) (n : Node) (xs ys : List (List X)) → SameBag xs ys →
        undefined_over ops n xs ≡ undefined_over ops n ys }
    ensures events { (ops : RowOps X) (n : Node) (c t : ℕ) (a b : List (Event (List X))) →
        Known c a b → t < c → undefined_over ops n (alive a t) ≡ undefined_over ops n (alive b t) }
{}

/// Finality: where later lines leave what is known of the sources below the punctuation `p`, they leave whether a node
/// is undefined at each instant below its closing, and so the least such instant.
pub fn undefined_is_final()
    ensures instants { (p : ℕ) (source later_source : Sources) (nodes : List Node) →
        IsOrdered nodes → IsLevelled nodes → ((s : ℕ) → Known p (source s) (later_source s)) →
        (i t : ℕ) → t < closes nodes i p →
        undefined_at source nodes i t ≡ undefined_at later_source nodes i t }
    ensures first { (p : ℕ) (source later_source : Sources) (nodes : List Node) →
        IsOrdered nodes → IsLevelled nodes → ((s : ℕ) → Known p (source s) (later_source s)) →
        (i c : ℕ) → c ≤ closes nodes i p →
        first_undefined source nodes i c ≡ first_undefined later_source nodes i c }
{}

/// At a punctuation the lowest node is found that is undefined at an instant below its closing, with its least such
/// instant; and none exactly where no node is. Later lines leave it as it is.
pub fn overflow_is()
    ensures some { (source : Sources) (nodes : List Node) (p : ℕ) (o : Overflow) →
        overflow source nodes p ≡ Some o → (o.node < length nodes)
        × (first_undefined source nodes o.node (closes nodes o.node p) ≡ Some o.time)
        × ((j : ℕ) → j < o.node → first_undefined source nodes j (closes nodes j p) ≡ None) }
    ensures none { (source : Sources) (nodes : List Node) (p : ℕ) → overflow source nodes p ≡ None →
        (i : ℕ) → i < length nodes → first_undefined source nodes i (closes nodes i p) ≡ None }
    ensures later { (p : ℕ) (source later_source : Sources) (nodes : List Node) →
        IsOrdered nodes → IsLevelled nodes → ((s : ℕ) → Known p (source s) (later_source s)) →
        overflow source nodes p ≡ overflow later_source nodes p }
{}
