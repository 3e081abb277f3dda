// The planning of a whole query, item by item: its streams, its lets and its body, up to the first fault.
ghost use Rattle.std.specs.Prelude.{◌≡◌, ◌+◌, [], IfOk};
ghost use Rattle.query_plan.specs.Answer.{Is};
ghost use Rattle.query_plan.specs.Draft.{no_draft};
ghost use Rattle.query_plan.specs.Planned.{stream_planned, streams_planned, step_planned, steps_planned, let_planned, lets_planned, planned};

use crate::checks::needs;
use crate::draft::{Draft, PlannedNode};
use crate::schemas::copied;
use crate::steps::{StepContext, operand};
use plan_model::{Node, Plan, QueryError, QueryFault, StreamList};
use query_text::{Let, Pipe, Query, QueryStep};
use std::alloc::Global;
use std::marker::Model;
use tw_rows::{Memory, StreamDef};

// What is planned after an item, and the node whose rows the next step works on.
#[derive(Drop)]
struct Reached {
    draft: Draft,
    at: usize,
}

impl Model for Reached {
    ghost use Rattle.query_plan.specs.Planned.{Reached as After};

    ghost Value = { After };

    ghost view = { λ r. record { draft = r.draft; at = r.at } };
}

// The number of the item that is so many behind. A query that is in memory has no item whose number is too large.
fn item_after(item: usize, count: usize) -> Result<usize, Memory>
    ensures { IfOk result (λ after. after ≡ item + count) }
{
    match item.checked_add(count) {
        Some(after) => Ok(after),
        None => Err(Memory),
    }
}

// A stream, which is the item of its own number: its source, and its name, which is to be new.
fn stream_planned(
    alloc: Global,
    item: usize,
    draft: Draft,
    stream: &StreamDef,
) -> Result<Draft, QueryError>
    ensures { Is (λ d. d) result (stream_planned item draft stream.now) }
{
    let source = draft.len();
    let is_taken = draft.is_taken(stream.name.as_str());
    let schema = copied(alloc, stream.schema.items())?;
    let node = Node::Source { stream: item };
    let mut draft = draft.admit(item, vec![in alloc; PlannedNode { node, schema }]?)?;
    needs(!is_taken, QueryFault::NameTaken { item })?;
    draft.name(&stream.name, source)?;
    Ok(draft)
}

// The streams of a query.
fn streams_planned(alloc: Global, streams: &[StreamDef]) -> Result<Draft, QueryError>
    ensures { Is (λ d. d) result (streams_planned 0 no_draft streams.now) }
{
    let mut draft = Draft::new(alloc);
    for (item, stream) in streams.iter().enumerate() {
        draft = stream_planned(alloc, item, draft, stream)?;
    }
    Ok(draft)
}

// A step. The next one works on the last node that it makes.
fn step_planned(
    alloc: Global,
    item: usize,
    reached: Reached,
    step: &QueryStep,
) -> Result<Reached, QueryError>
    ensures { Is (λ r. r) result (step_planned item reached step.now) }
{
    let Reached { draft, at } = reached;
    let context = StepContext {
        alloc,
        item,
        draft: &draft,
        at,
    };
    let planned = context.step_nodes(step)?;
    let draft = draft.admit(item, planned)?;
    let at = draft.len().saturating_sub(1);
    Ok(Reached { draft, at })
}

// The steps of a pipe, of which the first has the number `item`.
fn steps_planned(
    alloc: Global,
    item: usize,
    reached: Reached,
    steps: &[QueryStep],
) -> Result<Reached, QueryError>
    ensures { Is (λ r. r) result (steps_planned item reached steps.now) }
{
    let mut item = item;
    let mut reached = reached;
    for (i, step) in steps.iter().enumerate() {
        reached = step_planned(alloc, item, reached, step)?;
        item = item_after(item, 1)?;
    }
    Ok(reached)
}

// A let, which is known after its own pipe.
fn let_planned(alloc: Global, item: usize, draft: Draft, part: &Let) -> Result<Draft, QueryError>
    ensures { Is (λ d. d) result (let_planned item draft part.now) }
{
    let at = operand(item, &draft, &part.pipe.base)?;
    needs(
        !draft.is_taken(part.name.as_str()),
        QueryFault::NameTaken { item },
    )?;
    let first = item_after(item, 1)?;
    let reached = steps_planned(alloc, first, Reached { draft, at }, part.pipe.steps.items())?;
    let Reached { mut draft, at } = reached;
    draft.name(&part.name, at)?;
    Ok(draft)
}

// The body of a query.
fn body_planned(
    alloc: Global,
    item: usize,
    draft: Draft,
    body: &Pipe,
) -> Result<Reached, QueryError>
    ensures { Is (λ r. r) result (lets_planned item draft [] body.now) }
{
    let at = operand(item, &draft, &body.base)?;
    let first = item_after(item, 1)?;
    steps_planned(alloc, first, Reached { draft, at }, body.steps.items())
}

// The lets of a query, and its body behind them.
fn lets_planned(
    alloc: Global,
    item: usize,
    draft: Draft,
    lets: &[Let],
    body: &Pipe,
) -> Result<Reached, QueryError>
    ensures { Is (λ r. r) result (lets_planned item draft lets.now body.now) }
{
    let mut item = item;
    let mut draft = draft;
    for (i, part) in lets.iter().enumerate() {
        draft = let_planned(alloc, item, draft, part)?;
        let first = item_after(item, 1)?;
        item = item_after(first, part.pipe.steps.items().len())?;
    }
    body_planned(alloc, item, draft, body)
}

// A copy of the streams.
fn streams_copy(alloc: Global, streams: &[StreamDef]) -> Result<StreamList, Memory>
    ensures { IfOk result (λ list. list ≡ streams.now) }
{
    let mut copies = Vec::new(alloc);
    for stream in streams {
        copies.push(stream.clone()?)?;
    }
    Ok(StreamList::from_vec(copies))
}

/// The plan of a query, or its first fault. Items are numbered from 0 in the order of the text: each stream, each let and
/// then its steps, the head of the body and then its steps.
pub fn plan(alloc: Global, query: &Query) -> Result<Plan, QueryError>
    ensures { Is (λ p. p) result (planned query.now) }
{
    let streams = query.streams.items();
    let draft = streams_planned(alloc, streams)?;
    let lets = query.lets.items();
    let reached = lets_planned(alloc, streams.len(), draft, lets, &query.body)?;
    let Reached { draft, at } = reached;
    let copies = streams_copy(alloc, streams)?;
    let (nodes, schemas) = draft.into_parts();
    Ok(Plan::from_parts(copies, nodes, schemas, at))
}
