// The laws of plans at work. Each is a function that does nothing; its clauses are the law.
ghost use Rattle.std.specs.Prelude.{◌≡◌, ℕ, ◌<◌, ◌≤◌, true, Some, List, length, slice_get};
ghost use Rattle.tw_rows.specs.Instant.{inf};
ghost use Rattle.tw_rows.specs.Texts.{BeginsWith};
ghost use Rattle.tw_rows.specs.declared.edge.Edge.{Edge};
ghost use Rattle.tw_rows.specs.declared.kind.CellKind.{CellKind};
ghost use Rattle.plan_model.specs.declared.node.Node.{Node};
ghost use Rattle.plan_model.specs.IsPlan.{IsPlan};
ghost use Rattle.plan_model.specs.Meaning.{Sources, IsOrdered};
ghost use Rattle.plan_laws.specs.Held.{node_may_hold};
ghost use Rattle.plan_laws.specs.Undefined.{Overflow, overflow};
ghost use Rattle.plan_laws.specs.Places.{AreDistinct, EdgesArePlaced};
ghost use Rattle.plan_laws.specs.Standing.{SourcesStandRead, AllStandRead};
ghost use Rattle.where_select.specs.Stages.{is_of_rows};
ghost use Rattle.dataflow.specs.declared.stage.Stage.{Stage as Kept};
ghost use Rattle.dataflow.specs.Stages.{IsReady, entries_in, KeepsAtMost};
ghost use Rattle.dataflow.specs.Flows.{DataflowView, CanStep, Flows};
ghost use Rattle.dataflow.specs.Slices.{overflow_under, or_this};

use anti_join::Anti;
use coalesce_op::Coalesce;
use edge_stream::Operator;
use follow_op::Follow;
use lifetime_ops::{AlterLifetime, ExtendLifetime};
use outer_top::Top;
use session_window::Session;
use shard_apply::Sharded;
use snapshot_agg::Grouped;
use temporal_join::Join;
use union_clip::Clip;

/// A table that grows changes nothing of a plan at work.
pub fn plans_flow_on_with_longer_tables()
    ensures can { (texts more : List (List ℕ)) (last : ℕ) (d : DataflowView) →
        BeginsWith more texts → CanStep texts last d → CanStep more last d }
    ensures flows { (texts more : List (List ℕ)) (last : ℕ) (given lists : ℕ → List Edge)
        (d : DataflowView) → BeginsWith more texts → Flows texts last given lists d →
        Flows more last given lists d }
{}

/// All places in the edges that the nodes answered are in the table.
pub fn answers_have_their_places()
    ensures { (texts : List (List ℕ)) (last : ℕ) (given lists : ℕ → List Edge) (d : DataflowView) →
        AreDistinct texts → Flows texts last given lists d → (k : ℕ) → k < length d.plan.nodes →
        EdgesArePlaced texts (lists k) }
{}

/// What each node answered so far stands for its events, read: it is what is known of them below the node's closing at the last
/// punctuation, over the events of the sources for which the edges of the streams stand. Before the first punctuation that is
/// nothing: a Delay by 5 has no event below 5 then.
pub fn answers_stand()
    ensures { (texts : List (List ℕ)) (last : ℕ) (source : Sources) (given lists : ℕ → List Edge)
        (d : DataflowView) → IsPlan d.plan → AreDistinct texts → Flows texts last given lists d →
        SourcesStandRead texts last source given →
        AllStandRead texts d.plan.nodes last source lists (length d.plan.nodes) }
{}

/// Where a node overflows in a slice of an epoch, which ends at x, the overflow of the epoch, which ends at p, is that of the
/// lowest node below it that overflows by p, and where there is none this one.
pub fn overflows_stay()
    ensures { (source : Sources) (nodes : List Node) (x p : ℕ) (o : Overflow) → IsOrdered nodes →
        x ≤ p → p ≤ inf → overflow source nodes x ≡ Some o →
        overflow source nodes p ≡ Some (or_this o (overflow_under source nodes p o.node)) }
{}

/// The stage of a Source, a Where or a Select keeps nothing of one step for the next.
pub fn row_stages_keep_nothing()
    ensures { (texts : List (List ℕ)) (capacity : ℕ) (left right : List CellKind) (n : Node)
        (s : Kept) (x y : ℕ) → IsReady texts capacity left right n s x y → is_of_rows n ≡ true →
        entries_in s ≡ 0 }
{}

/// No stage keeps more entries than its node may, of the edges that came in and were answered.
pub fn stages_keep_at_most()
    ensures { (s : Kept) → KeepsAtMost (entries_in s) s }
{
    AlterLifetime::laws();
    union_clip::Union::laws();
    ExtendLifetime::laws();
    Sharded::<Join>::laws();
    Sharded::<Grouped>::laws();
    Sharded::<Session>::laws();
    Sharded::<Anti>::laws();
    Sharded::<Clip>::laws();
    Coalesce::laws();
    Follow::laws();
    Top::laws();
}

/// No stage of a plan at work keeps more entries than its node may after the last punctuation, over the events of the sources
/// for which the edges of the streams stand. Before the first punctuation it keeps none.
pub fn plans_keep_at_most()
    ensures { (texts : List (List ℕ)) (last : ℕ) (source : Sources) (given lists : ℕ → List Edge)
        (d : DataflowView) → IsPlan d.plan → AreDistinct texts → Flows texts last given lists d →
        SourcesStandRead texts last source given → (i : ℕ) (s : Kept) →
        slice_get d.stages i ≡ Some s → entries_in s ≤ node_may_hold source d.plan.nodes last i }
{
    stages_keep_at_most();
}
