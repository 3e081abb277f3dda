// A row stage, and what it makes of a list of edges.
ghost use Rattle.std.specs.Prelude.{◌≡◌, ◌≤◌, ℕ, List, [], ◌++◌, IfOk, OnOk};
ghost use Rattle.batch.specs.Rows.{edges_of};
ghost use Rattle.edge_history.specs.Order.{KeepsOrder, is_from, failing};
ghost use Rattle.edge_stream.specs.Listing.{cells_of};
ghost use Rattle.plan_model.specs.declared.node.Node.{Node};
ghost use Rattle.plan_model.specs.IsPlan.{node_kinds, most_columns};
ghost use Rattle.plan_laws.specs.Places.{EdgesArePlaced};
ghost use Rattle.where_select.specs.Made.{IsMade};
ghost use Rattle.where_select.specs.Stages.{ArePlain, IsStageOf, IsStage};

use crate::{Filter, Project};
use batch::{Batch, Pools};
use edge_stream::{EdgeList, put_last};
use std::alloc::Global;
use tw_rows::{Memory, TextTable};

/// What computes a Source, a Where or a Select over lists of edges. It keeps nothing of one list for the next.
pub enum RowStage {
    /// The edges as they come.
    Source,
    /// The edges whose row passes the test.
    Where(Filter),
    /// The edges with their rows replaced by the values of the items.
    Select(Project),
}

// By hand, so that its users cite this and not the destructors of its parts.
impl Drop for RowStage {
    fn drop(self) {
        match self {
            RowStage::Source => {}
            RowStage::Where(_filter) => {}
            RowStage::Select(_project) => {}
        }
    }
}

impl RowStage {
    /// What the node makes of the edges of its child, or of its stream where it is a Source. The pools are refilled as
    /// columns are needed. Out of memory the list is lost.
    pub fn step(
        &mut self,
        alloc: Global,
        pools: &mut Pools,
        texts: &TextTable,
        mut left: EdgeList,
    ) -> Result<EdgeList, Memory>
        requires stage { IsStage texts.now left.capacity (cells_of left) self.old }
        requires pools { pools.old.capacity ≡ left.capacity }
        requires limit { most_columns ≤ pools.old.limit }
        requires placed { EdgesArePlaced texts.now left.edges }
        ensures made { IfOk result (λ out. (n : Node) →
            IsStageOf texts.now left.capacity (cells_of left) n self.old →
            IsMade texts.now n left.edges out.edges) }
        ensures kinds { IfOk result (λ out. (n : Node) →
            IsStageOf texts.now left.capacity (cells_of left) n self.old → cells_of out
            ≡ node_kinds n (cells_of left) []) }
        ensures plain { IfOk result (λ out. ArePlain left.kinds → ArePlain out.kinds) }
        ensures placed { IfOk result (λ out. EdgesArePlaced texts.now out.edges) }
        ensures later { IfOk result (λ out. (x : ℕ) → failing (is_from x) left.edges ≡ 0 →
            failing (is_from x) out.edges ≡ 0) }
        ensures capacity { IfOk result (λ out. out.capacity ≡ left.capacity) }
        ensures pools { pools.new.capacity ≡ pools.old.capacity }
        ensures limit { pools.new.limit ≡ pools.old.limit }
        ensures same { self.new ≡ self.old }
    {
        if let RowStage::Source = self {
            return Ok(left);
        }
        let mut made = self.empty_list(alloc, &left)?;
        left.cursor();
        while let Some(batch) = left.take_batch() {
            let next = self.apply(pools, texts, batch)?;
            put_last(&mut made, next)?;
        }
        Ok(made)
    }

    // A list with no edge, of the kinds of the node.
    fn empty_list(&self, alloc: Global, left: &EdgeList) -> Result<EdgeList, Memory>
        requires stage { (texts : List (List ℕ))
            × IsStage texts left.now.capacity (cells_of left.now) self.now }
        ensures kinds { IfOk result (λ list. (n : Node) (texts : List (List ℕ)) →
            IsStageOf texts left.now.capacity (cells_of left.now) n self.now → cells_of list
            ≡ node_kinds n (cells_of left.now) []) }
        ensures plain { IfOk result (λ list. ArePlain left.now.kinds → ArePlain list.kinds) }
        ensures edges { IfOk result (λ list. list.edges ≡ []) }
        ensures capacity { IfOk result (λ list. list.capacity ≡ left.now.capacity) }
    {
        match self {
            RowStage::Select(project) => EdgeList::new(alloc, project.kinds(), left.capacity()),
            _ => EdgeList::new(alloc, left.kinds(), left.capacity()),
        }
    }

    // What the node makes of the edges of a batch.
    fn apply(&mut self, pools: &mut Pools, texts: &TextTable, batch: Batch) -> Result<Batch, Memory>
        requires stage { IsStage texts.now batch.capacity batch.kinds self.old }
        requires pools { pools.old.capacity ≡ batch.capacity }
        requires limit { most_columns ≤ pools.old.limit }
        requires placed { EdgesArePlaced texts.now (edges_of batch.rows) }
        ensures made { IfOk result (λ b. (n : Node) →
            IsStageOf texts.now batch.capacity batch.kinds n self.old →
            IsMade texts.now n (edges_of batch.rows) (edges_of b.rows)) }
        ensures kinds { IfOk result (λ b. (n : Node) →
            IsStageOf texts.now batch.capacity batch.kinds n self.old → b.kinds
            ≡ node_kinds n batch.kinds []) }
        ensures placed { IfOk result (λ b. EdgesArePlaced texts.now (edges_of b.rows)) }
        ensures capacity { IfOk result (λ b. b.capacity ≡ batch.capacity) }
        ensures pools { pools.new.capacity ≡ pools.old.capacity }
        ensures limit { pools.new.limit ≡ pools.old.limit }
        ensures same { self.new ≡ self.old }
    {
        match self {
            RowStage::Source => Ok(batch),
            RowStage::Where(filter) => Ok(filtered(filter, texts, batch)),
            RowStage::Select(project) => projected(project, pools, texts, batch),
        }
    }
}

// The batch with those of its rows that pass the test.
fn filtered(filter: &mut Filter, texts: &TextTable, mut batch: Batch) -> Batch
    requires stage { IsStage texts.now batch.capacity batch.kinds (RowStage.Where filter.old) }
    requires placed { EdgesArePlaced texts.now (edges_of batch.rows) }
    ensures made { (n : Node) → IsStageOf texts.now batch.capacity batch.kinds n
        (RowStage.Where filter.old) →
        IsMade texts.now n (edges_of batch.rows) (edges_of result.rows) }
    ensures kinds { (n : Node) → IsStageOf texts.now batch.capacity batch.kinds n
        (RowStage.Where filter.old) → result.kinds ≡ node_kinds n batch.kinds [] }
    ensures placed { EdgesArePlaced texts.now (edges_of result.rows) }
    ensures capacity { result.capacity ≡ batch.capacity }
    ensures same { filter.new ≡ filter.old }
{
    prove!(batch.rows() <= batch.capacity());
    filter.apply(&mut batch, texts);
    batch
}

// The batch with the values of the items for its cells.
fn projected(
    project: &mut Project,
    pools: &mut Pools,
    texts: &TextTable,
    batch: Batch,
) -> Result<Batch, Memory>
    requires stage { IsStage texts.now batch.capacity batch.kinds (RowStage.Select project.old) }
    requires pools { pools.old.capacity ≡ batch.capacity }
    requires limit { most_columns ≤ pools.old.limit }
    requires placed { EdgesArePlaced texts.now (edges_of batch.rows) }
    ensures made { IfOk result (λ b. (n : Node) →
        IsStageOf texts.now batch.capacity batch.kinds n (RowStage.Select project.old) →
        IsMade texts.now n (edges_of batch.rows) (edges_of b.rows)) }
    ensures kinds { IfOk result (λ b. (n : Node) →
        IsStageOf texts.now batch.capacity batch.kinds n (RowStage.Select project.old) → b.kinds
        ≡ node_kinds n batch.kinds []) }
    ensures placed { IfOk result (λ b. EdgesArePlaced texts.now (edges_of b.rows)) }
    ensures capacity { IfOk result (λ b. b.capacity ≡ batch.capacity) }
    ensures pools { pools.new.capacity ≡ pools.old.capacity }
    ensures limit { pools.new.limit ≡ pools.old.limit }
    ensures same { project.new ≡ project.old }
{
    prove!(batch.rows() <= batch.capacity());
    pools.refill(project.kinds().len())?;
    match project.apply(batch, pools, texts) {
        Ok(batch) => Ok(batch),
        Err(_) => unreachable!(),
    }
}
