// Projections: the columns of a batch made anew, one for each item.
ghost use Rattle.std.specs.Prelude.{◌≡◌, ◌<◌, ◌≤◌, ◌↔◌, [], length, map, All, IsTrue, IsErr, IfOk, IfErr, OnOk, OnErr};
ghost use Rattle.tw_rows.specs.Kinds.{cell_kind_of};
ghost use Rattle.batch.specs.Payloads.{payload_kind, payload_data, payload_capacity};
ghost use Rattle.batch.specs.PoolsView.{free_of, taken, all_taken, all_given};
ghost use Rattle.lane_expr.specs.Steps.{expr_of};
ghost use Rattle.lane_expr.specs.Kernels.{CanRead, AreResults, result_kind, kind_for};
ghost use Rattle.where_select.specs.Projects.{exprs_of, AreColumns, AreProjected, is_same_kind, many, Lacks};

use batch::{Batch, Payload, Pools};
use lane_expr::Kernel;
use smallvec::SmallVec;
use std::alloc::Global;
use std::error::Error;
use std::fmt;
use std::marker::Model;
use tw_rows::{CellKind, Kind, Memory, TextTable, cell_of};

/// How many payload columns are kept without memory of their own.
const WIDTH: usize = 32;

/// Some pool has fewer free columns than the items need of it. The batch is handed back as it was.
#[derive(Drop)]
pub struct NoColumn {
    pub batch: Batch,
}

impl fmt::Debug for NoColumn {
    fn fmt<W: fmt::Write>(&self, f: &mut fmt::Formatter<W>) -> fmt::Result {
        write!(f, "NoColumn")
    }
}

impl fmt::Display for NoColumn {
    fn fmt<W: fmt::Write>(&self, f: &mut fmt::Formatter<W>) -> fmt::Result {
        write!(f, "too few free columns for the items of a projection")
    }
}

impl Error for NoColumn {}

/// Makes the columns of batches anew, one for each item. Contracts see the items.
#[derive(Drop)]
pub struct Project {
    items: Vec<Kernel>,
    kinds: Vec<Kind>,
}

impl Model for Project {
    ghost use Rattle.std.specs.Prelude.{◌≡◌, ◌≤◌, List, length, map};
    ghost use Rattle.lane_expr.specs.Kernels.{Program, result_kind, kind_for};

    ghost Value = { List Program };

    ghost view = { λ p. p.items.items };

    ghost invariant = { λ p. (length p.items.items ≤ 32)
        × (p.kinds.items ≡ map (λ k. kind_for (result_kind k)) p.items.items) };
}

impl Project {
    /// A projection to these items, which are compiled for batches of the kinds.
    pub fn new(alloc: Global, items: Vec<Kernel>, kinds: &[Kind]) -> Result<Project, Memory>
        requires few { length items.items ≤ 32 }
        requires compiled { All (λ k. k.kinds ≡ map cell_kind_of kinds.now) items.items }
        ensures { IfOk result (λ p. p ≡ items.items) }
    {
        let mut results = Vec::new(alloc);
        for item in &items {
            results.push(item.kind())?;
        }
        Ok(Project {
            items,
            kinds: results,
        })
    }

    /// The kinds of the items' results, which are `Int` for all that is stored as a whole number.
    pub fn kinds(&self) -> &[Kind]
        ensures { result.now ≡ map (λ k. kind_for (result_kind k)) self.now }
    {
        self.kinds.as_slice()
    }

    /// The batch with the values of the items as its cells. Its columns are taken from the pools, which then get its
    /// old ones. It needs a table of texts that begins with those that the items were compiled with.
    pub fn apply(
        &mut self,
        batch: Batch,
        pools: &mut Pools,
        texts: &TextTable,
    ) -> Result<Batch, NoColumn>
        requires reads { All (λ k. CanRead texts.now k batch) self.old }
        requires pools { pools.old.capacity ≡ batch.capacity }
        ensures lacking { IsErr result ↔ Lacks pools.old (map result_kind self.old) }
        ensures kinds { IfOk result (λ b. b.kinds ≡ map result_kind self.old) }
        ensures capacity { IfOk result (λ b. b.capacity ≡ batch.capacity) }
        ensures rows { IfOk result (λ b. AreProjected texts.now
            (exprs_of texts.now self.old) batch.rows b.rows) }
        ensures given { OnOk result (pools.new ≡ all_given
            (all_taken pools.old (map result_kind self.old)) batch.kinds) }
        ensures err { IfErr result (λ n. n.batch ≡ batch) }
        ensures kept { OnErr result (pools.new ≡ pools.old) }
        ensures same { self.new ≡ self.old }
    {
        if lacks(pools, &self.kinds) {
            return Err(NoColumn { batch });
        }
        let alloc = *self.items.allocator();
        let columns = item_columns(alloc, self.items.as_mut_slice(), &batch, pools, texts);
        let (batch, old) = batch.exchange(columns);
        give_columns(pools, old);
        Ok(batch)
    }
}

// Whether some pool has fewer free columns than there are kinds that are stored so.
fn lacks(pools: &Pools, kinds: &[Kind]) -> bool
    ensures { IsTrue result ↔ Lacks pools.now (map cell_kind_of kinds.now) }
{
    pools.free(CellKind::Whole) < count_of(kinds, CellKind::Whole)
        || pools.free(CellKind::Bit) < count_of(kinds, CellKind::Bit)
        || pools.free(CellKind::Place) < count_of(kinds, CellKind::Place)
}

// How many of the kinds are stored so.
fn count_of(kinds: &[Kind], stored: CellKind) -> usize
    ensures { result ≡ many stored (map cell_kind_of kinds.now) }
{
    let mut count = 0;
    for kind in kinds {
        if is_same(stored, cell_of(*kind)) {
            count += 1;
        }
    }
    count
}

// Whether two cells are stored alike.
fn is_same(left: CellKind, right: CellKind) -> bool
    ensures { result ≡ is_same_kind left right }
{
    left == right
}

// The columns of the items' values over the batch.
fn item_columns(
    alloc: Global,
    items: &mut [Kernel],
    batch: &Batch,
    pools: &mut Pools,
    texts: &TextTable,
) -> SmallVec<Payload, WIDTH>
    requires reads { All (λ k. CanRead texts.now k batch.now) items.old }
    requires few { length items.old ≤ 32 }
    requires pools { pools.old.capacity ≡ batch.now.capacity }
    requires free { ¬ (Lacks pools.old (map result_kind items.old)) }
    ensures columns { AreColumns texts.now batch.now (exprs_of texts.now items.old) result.items }
    ensures kinds { map payload_kind result.items ≡ map result_kind items.old }
    ensures taken { pools.new ≡ all_taken pools.old (map result_kind items.old) }
    ensures same { items.new ≡ items.old }
{
    let mut columns = SmallVec::new(alloc);
    for i in 0..items.len() {
        columns.push_reserved(item_column(&mut items[i], batch, pools, texts));
    }
    columns
}

// The column of an item's values over the batch.
fn item_column(item: &mut Kernel, batch: &Batch, pools: &mut Pools, texts: &TextTable) -> Payload
    requires reads { CanRead texts.now item.old batch.now }
    requires pools { pools.old.capacity ≡ batch.now.capacity }
    requires free { 0 < free_of pools.old (result_kind item.old) }
    ensures results { AreResults texts.now (expr_of texts.now item.old.steps) batch.now.rows
        (payload_data result) }
    ensures kind { payload_kind result ≡ result_kind item.old }
    ensures room { payload_capacity result ≡ batch.now.capacity }
    ensures taken { pools.new ≡ taken pools.old (result_kind item.old) }
    ensures same { item.new ≡ item.old }
{
    let mut column = empty_column(pools, cell_of(item.kind()));
    prove!(batch.rows() <= column.capacity());
    fill(item, batch, texts, &mut column);
    column
}

// A free column for cells that are stored so.
fn empty_column(pools: &mut Pools, kind: CellKind) -> Payload
    requires { 0 < free_of pools.old kind }
    ensures kind { payload_kind result ≡ kind }
    ensures empty { payload_data result ≡ [] }
    ensures room { payload_capacity result ≡ pools.old.capacity }
    ensures taken { pools.new ≡ taken pools.old kind }
{
    match pools.take(kind) {
        Some(column) => column,
        None => unreachable!(),
    }
}

// Adds the item's value at each row to an empty column.
fn fill(item: &mut Kernel, batch: &Batch, texts: &TextTable, column: &mut Payload)
    requires reads { CanRead texts.now item.old batch.now }
    requires kind { payload_kind column.old ≡ result_kind item.old }
    requires empty { payload_data column.old ≡ [] }
    requires room { length batch.now.rows ≤ payload_capacity column.old }
    ensures results { AreResults texts.now (expr_of texts.now item.old.steps) batch.now.rows
        (payload_data column.new) }
    ensures kind { payload_kind column.new ≡ payload_kind column.old }
    ensures room { payload_capacity column.new ≡ payload_capacity column.old }
    ensures same { item.new ≡ item.old }
{
    match column {
        Payload::Ints(numbers) => item.map_int(batch, texts, numbers),
        Payload::Bits(bits) => item.map_bool(batch, texts, bits),
        Payload::Places(places) => item.map_text(batch, texts, places),
    }
}

// Gives the columns to the pools, the last one first.
fn give_columns(pools: &mut Pools, mut columns: SmallVec<Payload, WIDTH>)
    requires { All (λ p. payload_capacity p ≡ pools.old.capacity) columns.items }
    ensures { pools.new ≡ all_given pools.old (map payload_kind columns.items) }
{
    while let Some(column) = columns.pop() {
        pools.give(column);
    }
}
