// What the shards of a node save.
ghost use Rattle.std.specs.Prelude.{◌≡◌, ◌≤◌, false, length, IfOk};
ghost use Rattle.tw_rows.specs.Bag.{total};
ghost use Rattle.edge_stream.specs.Standing.{Implies};
ghost use Rattle.shard_apply.specs.Saving.{AreSound, ShardsResume};
ghost use Rattle.shard_apply.specs.Whole.{standing_in, entries_in, ShardsKeep};

use crate::sharded::Sharded;
use edge_stream::{Operator, Saved};
use tw_rows::Memory;

impl<O: Operator> Sharded<O> {
    /// What each operator keeps, as entries, in the order of the shards, and no more of them than it keeps.
    pub fn save(&self) -> Result<Vec<Saved>, Memory>
        requires { (standing_in O.standing self.now).has_failed ≡ false }
        ensures many { IfOk result (λ saved. length saved.items ≡ length self.now.operators) }
        ensures few { IfOk result
            (λ saved. total length saved.items ≤ entries_in O.entries self.now) }
        ensures sound { IfOk result (λ saved. AreSound O.sound self.now saved.items
            (standing_in O.standing self.now).left_closed
            (standing_in O.standing self.now).right_closed) }
        ensures resumes { IfOk result (λ saved.
            Implies (ShardsKeep O.standing O.keeps self.now)
            (ShardsResume O.standing O.resumes self.now saved.items
            (standing_in O.standing self.now).left_closed
            (standing_in O.standing self.now).right_closed)) }
    {
        let mut saved = Vec::with_capacity(self.alloc, self.shards.len())?;
        for shard in &self.shards {
            let entries = shard.operator.save()?;
            saved.push_reserved(entries);
        }
        Ok(saved)
    }
}
