// Batches from the columns of pools, and back.
ghost use Rattle.std.specs.Prelude.{◌≡◌, ◌≤◌, [], length, map, All, IfOk, OnOk, OnErr};
ghost use Rattle.tw_rows.specs.Kinds.{cell_kind_of};
ghost use Rattle.batch.specs.Payloads.{payload_kind, payload_capacity};
ghost use Rattle.batch.specs.Columns.{IsColumn};
ghost use Rattle.batch.specs.PoolsView.{all_taken, all_given, batch_taken, IsPartTaken, AreSomeTaken};

use crate::batch::{Batch, WIDTH};
use crate::payload::Payload;
use crate::pools::Pools;
use smallvec::SmallVec;
use std::alloc::Global;
use tw_rows::{Kind, Memory, cell_of};

impl Batch {
    /// A batch with no row, of the pools' capacity. Its columns are taken from the pools, and those
    /// that the pools lack are made. Out of memory, those that were taken by then are dropped.
    pub fn new(alloc: Global, pools: &mut Pools, kinds: &[Kind]) -> Result<Batch, Memory>
        requires { length kinds.now ≤ 32 }
        ensures ok { IfOk result (λ b. b ≡ record
            { rows = []; capacity = pools.old.capacity; kinds = map cell_kind_of kinds.now }) }
        ensures taken { OnOk result (pools.new ≡ batch_taken pools.old
            (map cell_kind_of kinds.now)) }
        ensures err { OnErr result (IsPartTaken pools.old pools.new (map cell_kind_of kinds.now)) }
    {
        let sync = pools.words_column()?;
        let other = pools.words_column()?;
        let key = pools.words_column()?;
        let hash = pools.words_column()?;
        let occupied = pools.occupancy()?;
        let payload = payload_columns(alloc, pools, kinds)?;
        Ok(Batch {
            sync,
            other,
            key,
            hash,
            payload,
            occupied,
        })
    }
}

// An empty column for each kind, in order.
fn payload_columns(
    alloc: Global,
    pools: &mut Pools,
    kinds: &[Kind],
) -> Result<SmallVec<Payload, WIDTH>, Memory>
    ensures kinds { IfOk result (λ v. map payload_kind v.items ≡ map cell_kind_of kinds.now) }
    ensures empty { IfOk result (λ v. All (IsColumn 0 pools.old.capacity) v.items) }
    ensures taken { OnOk result (pools.new ≡ all_taken pools.old (map cell_kind_of kinds.now)) }
    ensures err { OnErr result (AreSomeTaken pools.old pools.new (map cell_kind_of kinds.now)) }
{
    let mut payload = SmallVec::new(alloc);
    for kind in kinds {
        payload.push(pools.payload_column(cell_of(*kind))?)?;
    }
    Ok(payload)
}

// Gives the columns back, the last one first.
pub(crate) fn give_columns(pools: &mut Pools, mut payload: SmallVec<Payload, WIDTH>)
    requires { All (λ p. payload_capacity p ≡ pools.old.capacity) payload.items }
    ensures { pools.new ≡ all_given pools.old (map payload_kind payload.items) }
{
    while let Some(column) = payload.pop() {
        pools.give(column);
    }
}
