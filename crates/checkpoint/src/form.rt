// What is known of a checkpoint before it is read.
ghost use Rattle.std.specs.Prelude.{◌≡◌, ◌<◌, ◌≤◌, ◌+◌, ◌^◌, ◌++◌, map, length, slice_get, Some, OnOk, IfOk, IfSome, IfNone};
ghost use Rattle.frozen_state.specs.Forms.{AreApart};
ghost use Rattle.checkpoint.specs.Form.{form_of, head_lines, query_lines};

use crate::head::{push_form_line, push_options_line, push_query_line};
use admission::Policy;
use frozen_state::{PartForm, part_forms, parts_are_apart};
use plan_model::Plan;
use std::alloc::Global;
use std::marker::Model;
use tw_rows::Memory;

/// The form of the checkpoints of a query: what whoever knows the query, the options and the plan knows of their text.
pub struct Form {
    head: Vec<Vec<u8>>,
    streams: usize,
    parts: Vec<PartForm>,
}

// By hand, so that its users cite this and not the destructors of its parts.
impl Drop for Form {
    fn drop(self) {
        let Form {
            head: _head,
            streams: _,
            parts: _parts,
        } = self;
    }
}

impl Model for Form {
    ghost use Rattle.std.specs.Prelude.{map};
    ghost use Rattle.frozen_state.specs.Forms.{AreApart};
    ghost use Rattle.checkpoint.specs.Form.{FormView};

    ghost Value = { FormView };

    ghost view = { λ f. record { head = map (λ line. line.items) f.head.items; streams = f.streams; parts = f.parts.items } };

    ghost invariant = { λ f. AreApart f.parts.items };
}

/// How many bytes of the query a line has at most.
const MOST_OF_QUERY: usize = 30000;

// Adds the lines of the query's bytes.
fn push_query(alloc: Global, head: &mut Vec<Vec<u8>>, query: &[u8]) -> Result<(), Memory>
    ensures { OnOk result (map (λ line. line.items) head.new.items
        ≡ map (λ line. line.items) head.old.items ++ query_lines query.now) }
{
    let mut rest = query;
    while !rest.is_empty() {
        let (piece, more) = rest.split_at(rest.len().min(MOST_OF_QUERY));
        let mut line = Vec::new(alloc);
        push_query_line(alloc, &mut line, piece)?;
        head.push(line)?;
        rest = more;
    }
    Ok(())
}

// The lines in front of what was frozen.
fn lines_of_head(
    alloc: Global,
    query: &str,
    workers: u64,
    policy: &Policy,
) -> Result<Vec<Vec<u8>>, Memory>
    ensures { IfOk result (λ head.
        map (λ line. line.items) head.items ≡ head_lines query.now workers policy.now) }
{
    let mut head = Vec::new(alloc);
    let mut first = Vec::new(alloc);
    push_form_line(&mut first)?;
    head.push(first)?;
    push_query(alloc, &mut head, query.as_bytes())?;
    let mut options = Vec::new(alloc);
    push_options_line(&mut options, workers, policy)?;
    head.push(options)?;
    Ok(head)
}

impl Form {
    /// The form of the query, with these options and its plan.
    pub fn new(
        alloc: Global,
        query: &str,
        workers: u64,
        policy: &Policy,
        plan: &Plan,
    ) -> Result<Form, Memory>
        ensures { IfOk result (λ form. form ≡ form_of query.now workers policy.now plan.now) }
    {
        // Its call tells the proof that no two parts are of the same owner and shard.
        parts_are_apart();
        Ok(Form {
            head: lines_of_head(alloc, query, workers, policy)?,
            streams: plan.streams().len(),
            parts: part_forms(alloc, plan, workers)?,
        })
    }

    /// The line of that number, from 0, of those in front of what was frozen.
    pub fn head_line(&self, number: usize) -> Option<&[u8]>
        ensures some { IfSome result (λ line. slice_get self.now.head number ≡ Some line.now) }
        ensures none { IfNone result (length self.now.head ≤ number) }
        ensures room { IfSome result (λ line. number + 1 < 2 ^ 64) }
    {
        match self.head.get(number) {
            Some(line) => Some(line.as_slice()),
            None => None,
        }
    }

    /// How many streams there are.
    pub fn streams(&self) -> usize
        ensures { result ≡ self.now.streams }
    {
        self.streams
    }

    /// What is known of each part.
    pub fn parts(&self) -> &[PartForm]
        ensures parts { result.now ≡ self.now.parts }
        ensures apart { AreApart self.now.parts }
    {
        &self.parts
    }
}
