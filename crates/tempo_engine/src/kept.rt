// What the parts of an engine keep, apart and in a row.
ghost use Rattle.std.specs.Prelude.{◌≡◌, ◌∷◌, ◌++◌, [], map, take, drop, IfOk, OnOk};
ghost use Rattle.std.specs.Vec.Iter.{into_iter_items};
ghost use Rattle.tw_rows.specs.Bag.{total};
ghost use Rattle.frozen_state.specs.Forms.{shards_of};
ghost use Rattle.tempo_engine.specs.Kept.{KeptView, first_saved, shared_out, node_counts, kept_of, shard_row, node_row, frozen_of};

use edge_stream::Saved;
use frozen_state::{Frozen, FrozenPart, Owner, shards_of_node};
use plan_model::Plan;
use std::alloc::Global;
use std::marker::Model;
use std::vec::IntoIter;
use tw_rows::{Label, Memory, Time};

/// What the parts of an engine keep, as entries, with the last punctuation and the bound and the mark of each stream.
pub struct Kept {
    pub last: Time,
    pub bounds: Vec<Time>,
    pub marks: Vec<Time>,
    pub input: Saved,
    /// By number of the node, and by shard.
    pub nodes: Vec<Vec<Saved>>,
    pub output: Saved,
}

// By hand, so that its users cite this and not the destructors of its parts.
impl Drop for Kept {
    fn drop(self) {
        let Kept {
            last: _,
            bounds: _bounds,
            marks: _marks,
            input: _input,
            nodes: _nodes,
            output: _output,
        } = self;
    }
}

impl Model for Kept {
    ghost use Rattle.std.specs.Prelude.{map};
    ghost use Rattle.tempo_engine.specs.Kept.{KeptView as View};

    ghost Value = { View };

    ghost view = { λ k. record {
      last = k.last;
      bounds = k.bounds.items;
      marks = k.marks.items;
      input = k.input;
      nodes = map (λ shards. shards.items) k.nodes.items;
      output = k.output;
    } };
}

// The entries of the next part.
fn next_saved(alloc: Global, parts: &mut IntoIter<FrozenPart>) -> Saved
    ensures saved { result ≡ first_saved (into_iter_items parts.old) }
    ensures rest { into_iter_items parts.new ≡ drop 1 (into_iter_items parts.old) }
{
    match parts.next() {
        Some(part) => {
            let FrozenPart {
                owner: _,
                shard: _,
                saved,
            } = part;
            saved
        }
        None => Saved::new(alloc),
    }
}

// The entries of so many parts that come next.
fn shards_saved(
    alloc: Global,
    parts: &mut IntoIter<FrozenPart>,
    count: u64,
) -> Result<Vec<Saved>, Memory>
    ensures saved { IfOk result (λ saved. saved.items ≡ map
        (λ p. p.saved) (take count (into_iter_items parts.old))) }
    ensures rest { OnOk result (into_iter_items parts.new
        ≡ drop count (into_iter_items parts.old)) }
{
    let mut saved = Vec::new(alloc);
    for _shard in 0..count {
        if let Some(part) = parts.next() {
            let FrozenPart {
                owner: _,
                shard: _,
                saved: entries,
            } = part;
            saved.push(entries)?;
        }
    }
    Ok(saved)
}

// The entries of the nodes, whose parts come next.
fn nodes_saved(
    alloc: Global,
    plan: &Plan,
    workers: u64,
    parts: &mut IntoIter<FrozenPart>,
) -> Result<Vec<Vec<Saved>>, Memory>
    ensures saved { IfOk result (λ nodes. map (λ shards. shards.items) nodes.items
        ≡ shared_out (node_counts workers plan.now) (into_iter_items parts.old)) }
    ensures rest { OnOk result (into_iter_items parts.new
        ≡ drop (total (λ n. n) (node_counts workers plan.now)) (into_iter_items parts.old)) }
{
    let mut saved = Vec::new(alloc);
    for node in plan.nodes() {
        saved.push(shards_saved(alloc, parts, shards_of_node(node, workers))?)?;
    }
    Ok(saved)
}

// Puts the parts of a node behind those in the row.
fn push_node(row: &mut Vec<FrozenPart>, node: u64, shards: Vec<Saved>) -> Result<(), Memory>
    ensures { OnOk result (row.new.items ≡ row.old.items ++ shard_row node 0 shards.items) }
{
    let mut shard = 0;
    let mut rest = shards.into_iter();
    while let Some(saved) = rest.next() {
        row.push(FrozenPart {
            owner: Owner::Node(node),
            shard,
            saved,
        })?;
        shard += 1;
    }
    Ok(())
}

// Puts the parts of all nodes behind those in the row.
fn push_nodes(row: &mut Vec<FrozenPart>, nodes: Vec<Vec<Saved>>) -> Result<(), Memory>
    ensures { OnOk result (row.new.items ≡ row.old.items ++ node_row 0
        (map (λ shards. shards.items) nodes.items)) }
{
    let mut node = 0;
    let mut rest = nodes.into_iter();
    while let Some(shards) = rest.next() {
        push_node(row, node, shards)?;
        node += 1;
    }
    Ok(())
}

impl Kept {
    /// What was frozen, apart: as many parts belong to each node as a plan at work with so many workers has. Whose they are is
    /// not looked at.
    pub fn of(alloc: Global, plan: &Plan, workers: u64, frozen: Frozen) -> Result<Kept, Memory>
        ensures { IfOk result (λ kept. kept ≡ kept_of workers plan.now frozen) }
    {
        let last = frozen.last();
        let (bounds, marks, parts) = frozen.into_parts();
        let mut rest = parts.into_iter();
        let input = next_saved(alloc, &mut rest);
        let nodes = nodes_saved(alloc, plan, workers, &mut rest)?;
        let output = next_saved(alloc, &mut rest);
        Ok(Kept {
            last,
            bounds,
            marks,
            input,
            nodes,
            output,
        })
    }

    /// What is frozen of it, with the number of the last line and the texts by place.
    pub fn frozen(self, alloc: Global, lines: u64, texts: Vec<Label>) -> Result<Frozen, Memory>
        ensures { IfOk result (λ f. f ≡ frozen_of lines texts.items self) }
    {
        let Kept {
            last,
            bounds,
            marks,
            input,
            nodes,
            output,
        } = self;
        let mut parts = Vec::new(alloc);
        parts.push(FrozenPart {
            owner: Owner::In,
            shard: 0,
            saved: input,
        })?;
        push_nodes(&mut parts, nodes)?;
        parts.push(FrozenPart {
            owner: Owner::Out,
            shard: 0,
            saved: output,
        })?;
        Ok(Frozen::new(lines, last, bounds, marks, texts, parts))
    }
}
