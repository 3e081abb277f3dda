// What holds of every node in shards.
ghost use Rattle.std.specs.Prelude.{ℕ, ◌≤◌, [], List};
ghost use Rattle.tw_rows.specs.Texts.{BeginsWith};
ghost use Rattle.tw_rows.specs.declared.edge.Edge.{Edge};
ghost use Rattle.plan_laws.specs.Places.{AreDistinct};
ghost use Rattle.edge_stream.specs.Standing.{IsFresh, StandsFor, most_entries};
ghost use Rattle.shard_apply.specs.Whole.{Whole, standing_in, entries_in, AreNew, ShardsKeep};

use crate::sharded::Sharded;
use edge_stream::Operator;

impl<O: Operator> Sharded<O> {
    /// What holds of every operator holds of the whole. As it is made it keeps nothing, of no edges, and works. What it answered
    /// stands, read, for the events of its node. A table that grows changes nothing of what it keeps. It keeps no more entries
    /// than its node may. A call does nothing but tell a proof of this.
    pub fn laws()
        ensures fresh { (w : Whole O) → AreNew O.is_opening O.standing w →
            IsFresh (standing_in O.standing w) }
        ensures opens { (w : Whole O) (texts : List (List ℕ)) → AreNew O.is_opening O.standing w →
            ShardsKeep O.standing O.keeps w texts [] [] [] }
        ensures stands { (w : Whole O) (texts : List (List ℕ)) (hl hr out : List Edge) →
            AreDistinct texts → ShardsKeep O.standing O.keeps w texts hl hr out →
            StandsFor (standing_in O.standing w) texts hl hr out }
        ensures grows { (w : Whole O) (new old : List (List ℕ)) (hl hr out : List Edge) →
            BeginsWith new old → ShardsKeep O.standing O.keeps w old hl hr out →
            ShardsKeep O.standing O.keeps w new hl hr out }
        ensures bounded { (w : Whole O) (texts : List (List ℕ)) (hl hr out : List Edge) →
            ShardsKeep O.standing O.keeps w texts hl hr out →
            entries_in O.entries w ≤ most_entries (standing_in O.standing w) hl hr }
    {
        O::laws();
    }
}
