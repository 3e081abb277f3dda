// The parts of an engine frozen, and parts that were made of what others were frozen to.
ghost use Rattle.std.specs.Prelude.{◌≡◌, ◌≢◌, ◌↔◌, ◌<◌, ◌≤◌, ℕ, IsTrue, false, true, List, length, map, get_or, IfOk, IfErr, OnOk};
ghost use Rattle.tw_rows.specs.Instant.{inf};
ghost use Rattle.tw_rows.specs.Texts.{BeginsWith};
ghost use Rattle.tw_rows.specs.declared.edge.Edge.{Edge};
ghost use Rattle.lane_expr.specs.Steps.{with_texts};
ghost use Rattle.plan_model.specs.IsPlan.{IsPlan};
ghost use Rattle.plan_laws.specs.Places.{AreDistinct};
ghost use Rattle.admission.specs.Admission.{Admission};
ghost use Rattle.ingress.specs.Admits.{IsFor, Admits, Follows};
ghost use Rattle.ingress.specs.Fits.{stream_cells};
ghost use Rattle.ingress.specs.Saving.{Resumes, IsSound as IsSoundInput};
ghost use Rattle.egress.specs.Output.{Holds, IsPlacedIn};
ghost use Rattle.egress.specs.Saving.{EntriesArePlaced, Resumes as ShownResumes, IsSound as IsSoundOutput};
ghost use Rattle.tempo_engine.specs.Kept.{kept_of, node_counts, parts_of};
ghost use Rattle.tempo_engine.specs.Named.{AreNamed};
ghost use Rattle.frozen_state.specs.Forms.{part_forms as forms_of};
ghost use Rattle.dataflow.specs.Flows.{CanStep, Flows};
ghost use Rattle.dataflow.specs.Held.{nodes_in_all};
ghost use Rattle.dataflow.specs.Saving.{AreStates, FlowsResume};
ghost use Rattle.dataflow.specs.Stages.{reached};
ghost use Rattle.tempo_engine.specs.Output.{result_kinds};
ghost use Rattle.tempo_engine.specs.Frozen.{time_at, FitsProgress, IsSoundKept, IsComplete, IsState};
ghost use Rattle.tempo_engine.specs.Entries.{entries_of};
ghost use Rattle.tempo_engine.specs.Freezing.{WhateverWent, FitsParts, GoesOnFrom, HasForm, kept_at_most};

use crate::kept::Kept;
use crate::named::{are_named, are_placed};
use crate::parts::{Parts, each_text_once, kinds_of_result};
use crate::stored::are_stored;
use crate::table::{are_one_line, labels_of, table_of};
use admission::Policy;
use batch::Pools;
use dataflow::Dataflow;
use edge_stream::{LoadFault, Saved};
use egress::Egress;
use frozen_state::{Frozen, part_forms};
use ingress::Ingress;
use plan_model::{MOST_COLUMNS, Plan, closes};
use std::alloc::Global;
use tw_rows::{Memory, TextTable, Time};

// The bounds of the first streams.
fn bounds_of(alloc: Global, ingress: &Ingress, streams: usize) -> Result<Vec<Time>, Memory>
    requires { streams ≡ length ingress.now.kinds.items }
    ensures count { IfOk result (λ times. length times.items ≡ streams) }
    ensures bounds { IfOk result (λ times. (texts : List (List ℕ)) (a : Admission) (given : ℕ →
        List Edge) → Follows texts a given ingress.now → (s : ℕ) → s < streams →
        a.bound s ≡ get_or times.items s 0) }
{
    let mut times = Vec::new(alloc);
    for stream in 0..streams {
        times.push(ingress.bound(stream))?;
    }
    Ok(times)
}

// The marks of the first streams.
fn marks_of(alloc: Global, ingress: &Ingress, streams: usize) -> Result<Vec<Time>, Memory>
    requires { streams ≡ length ingress.now.kinds.items }
    ensures count { IfOk result (λ times. length times.items ≡ streams) }
    ensures marks { IfOk result (λ times. (texts : List (List ℕ)) (a : Admission) (given : ℕ →
        List Edge) → Follows texts a given ingress.now → (s : ℕ) → s < streams →
        a.mark s ≡ get_or times.items s 0) }
{
    let mut times = Vec::new(alloc);
    for stream in 0..streams {
        times.push(ingress.mark(stream))?;
    }
    Ok(times)
}

// The time, or 0 before the first punctuation.
fn time_reached(last: Time, closing: Time) -> Time
    ensures { result ≡ reached last closing }
{
    if last == Time::ZERO { last } else { closing }
}

// Whether the entries of the parts are stored as the plan says, with places in the table, and each text is of one line.
fn has_form(
    alloc: Global,
    plan: &Plan,
    workers: u64,
    frozen: &Frozen,
    texts: &TextTable,
) -> Result<bool, Memory>
    requires named { AreNamed (forms_of workers plan.now) frozen.now.parts }
    ensures { IfOk result (λ b.
        IsTrue b ↔ HasForm (forms_of workers plan.now) texts.now frozen.now) }
{
    let forms = part_forms(alloc, plan, workers)?;
    Ok(
        are_stored(&forms, frozen.parts())
            && are_placed(frozen.parts(), texts)
            && are_one_line(frozen.texts()),
    )
}

// Whether it has all parts, bounds and marks, and no place that is not in the table of its texts.
fn is_complete(
    alloc: Global,
    plan: &Plan,
    workers: u64,
    frozen: &Frozen,
    texts: &TextTable,
) -> Result<bool, Memory>
    requires { texts.now ≡ frozen.now.texts }
    ensures { IfOk result (λ b. IsTrue b ↔ IsComplete workers plan.now frozen.now) }
{
    let forms = part_forms(alloc, plan, workers)?;
    let streams = plan.streams().len();
    Ok(
        are_named(&forms, frozen.parts())
            && frozen.bounds().len() == streams
            && frozen.marks().len() == streams
            && are_placed(frozen.parts(), texts),
    )
}

// The table of its texts, where it has all parts, bounds and marks, and no text stands in it twice.
fn complete_table(
    alloc: Global,
    plan: &Plan,
    workers: u64,
    frozen: &Frozen,
) -> Result<TextTable, LoadFault>
    ensures texts { IfOk result (λ texts. texts ≡ frozen.now.texts) }
    ensures distinct { OnOk result (AreDistinct frozen.now.texts) }
    ensures complete { OnOk result (IsComplete workers plan.now frozen.now) }
    ensures refused { IfErr result (λ fault. fault ≡ LoadFault.NotState →
        IsComplete workers plan.now frozen.now → AreDistinct frozen.now.texts → ⊥) }
{
    let Some(texts) = table_of(alloc, frozen.texts())? else {
        return Err(LoadFault::NotState);
    };
    if is_complete(alloc, plan, workers, frozen, &texts)? {
        Ok(texts)
    } else {
        Err(LoadFault::NotState)
    }
}

// Admission that goes on from the entries, the bounds, the marks and the last punctuation.
fn ingress_of(
    alloc: Global,
    plan: &Plan,
    policy: Policy,
    batch: usize,
    input: &Saved,
    bounds: &[Time],
    marks: &[Time],
    last: Time,
) -> Result<Ingress, LoadFault>
    requires batch { 1 ≤ batch }
    requires bounds { length bounds.now ≡ length plan.now.streams }
    requires marks { length marks.now ≡ length plan.now.streams }
    ensures whole { OnOk result (IsPlan plan.now) }
    ensures fixed { IfOk result (IsFor plan.now.streams policy batch) }
    ensures admits { IfOk result (λ i. (texts : List (List ℕ)) (a : Admission) (given : ℕ →
        List Edge) → Resumes (stream_cells plan.now.streams) input.now (time_at bounds.now)
        (time_at marks.now) last texts a given → Admits texts a given i) }
    ensures released { IfOk result (λ i. i.released ≡ last) }
    ensures sound { IfOk result (λ i. IsSoundInput (stream_cells plan.now.streams) input.now
        (time_at bounds.now) (time_at marks.now) last) }
    ensures refused { IfErr result (λ fault. fault ≡ LoadFault.NotState →
        IsSoundInput (stream_cells plan.now.streams) input.now (time_at bounds.now)
        (time_at marks.now) last → ⊥) }
    ensures low { IfOk result (λ i. i.released ≤ inf) }
{
    let mut ingress = Ingress::new(alloc, policy, plan.streams(), batch)?;
    match ingress.load(input, bounds, marks, last) {
        Ok(()) => Ok(ingress),
        Err(fault) => Err(fault),
    }
}

// An output that goes on from the entries, at a closing.
fn egress_of(alloc: Global, plan: &Plan, output: &Saved, closed: Time) -> Result<Egress, LoadFault>
    ensures holds { IfOk result (λ e. (texts : List (List ℕ)) (h : List Edge) →
        ShownResumes (result_kinds plan.now) output.now closed texts h →
        Holds texts h closed closed e) }
    ensures placed { IfOk result (λ e. (texts : List (List ℕ)) → EntriesArePlaced texts output.now →
        IsPlacedIn texts e) }
    ensures ready { IfOk result (λ e. e.failed ≡ false) }
    ensures kinds { IfOk result (λ e. e.rows.kinds.items ≡ result_kinds plan.now) }
    ensures sound { IfOk result (λ e. IsSoundOutput (result_kinds plan.now) output.now closed) }
    ensures refused { IfErr result (λ fault. fault ≡ LoadFault.NotState →
        IsSoundOutput (result_kinds plan.now) output.now closed → ⊥) }
{
    let kinds = kinds_of_result(alloc, plan)?;
    let mut egress = Egress::new(alloc, &kinds)?;
    match egress.load(output, closed) {
        Ok(()) => Ok(egress),
        Err(fault) => Err(fault),
    }
}

// A plan at work that goes on from the entries of its nodes, at the last punctuation. The texts of its expressions come into
// the table.
fn dataflow_of(
    alloc: Global,
    plan: Plan,
    batch: usize,
    workers: usize,
    texts: &mut TextTable,
    nodes: &[Vec<Saved>],
    last: Time,
) -> Result<Dataflow, LoadFault>
    requires batch { 1 ≤ batch }
    requires workers { (1 ≤ workers) × (workers ≤ 16) }
    ensures flows { IfOk result (λ d. (given lists : ℕ → List Edge) →
        FlowsResume texts.old last given lists workers plan
        (map (λ shards. shards.items) nodes.now) → Flows texts.new last given lists d) }
    ensures can { IfOk result (λ d. CanStep texts.new last d) }
    ensures plan { IfOk result (λ d. d.plan ≡ plan) }
    ensures capacity { IfOk result (λ d. d.capacity ≡ batch) }
    ensures workers { IfOk result (λ d. d.workers ≡ workers) }
    ensures thawed { IfOk result (λ d. d.thawed ≡ true) }
    ensures table { OnOk result (texts.new ≡ with_texts texts.old (nodes_in_all plan.nodes)) }
    ensures begins { BeginsWith texts.new texts.old }
    ensures states { IfOk result (λ d. AreStates workers plan last
        (map (λ shards. shards.items) nodes.now)) }
    ensures refused { IfErr result (λ fault. fault ≡ LoadFault.NotState →
        AreStates workers plan last (map (λ shards. shards.items) nodes.now) → ⊥) }
{
    let mut dataflow = Dataflow::new(alloc, plan, batch, workers, texts)?;
    match dataflow.load(nodes, last) {
        Ok(()) => Ok(dataflow),
        Err(fault) => Err(fault),
    }
}

impl Parts {
    ghost use Rattle.tempo_engine.specs.Went.{CanRun};

    // What the parts keep. They are as they were.
    fn keep(&self) -> Result<Kept, Memory>
        requires { CanRun self.now }
        ensures fits { IfOk result (λ k. WhateverWent self.now (λ plan policy w given lists.
            EntriesArePlaced self.now.texts k.output →
            FitsProgress self.now.dataflow.workers plan w given lists self.now.texts k)) }
        ensures shards { IfOk result (λ k. map (λ shards. length shards) k.nodes ≡
            node_counts self.now.dataflow.workers self.now.dataflow.plan) }
        ensures bounds { IfOk result (λ k.
            length k.bounds ≡ length self.now.dataflow.plan.streams) }
        ensures marks { IfOk result (λ k.
            length k.marks ≡ length self.now.dataflow.plan.streams) }
        ensures few { IfOk result (λ k. WhateverWent self.now (λ plan policy w given lists.
            entries_of (parts_of k) ≤ kept_at_most plan w lists self.now)) }
    {
        each_text_once(&self.texts);
        let count = self.dataflow.plan().streams().len();
        let last = self.ingress.released();
        let bounds = bounds_of(self.alloc, &self.ingress, count)?;
        let marks = marks_of(self.alloc, &self.ingress, count)?;
        let input = self.ingress.save()?;
        let nodes = self.dataflow.save()?;
        let output = self.egress.save()?;
        Ok(Kept {
            last,
            bounds,
            marks,
            input,
            nodes,
            output,
        })
    }

    // What the parts are frozen to, after a line of that number. That it has its form is tested: of parts that keep what they
    // took from lines it always has.
    pub(crate) fn freeze(&self, lines: u64) -> Result<Frozen, Memory>
        requires { CanRun self.now }
        ensures fits { IfOk result (λ f. WhateverWent self.now (λ plan policy w given lists.
            FitsParts self.now.dataflow.workers plan w given lists f)) }
        ensures lines { IfOk result (λ f. f.lines ≡ lines) }
        ensures texts { IfOk result (λ f. f.texts ≡ self.now.texts) }
        ensures few { IfOk result (λ f. WhateverWent self.now (λ plan policy w given lists.
            entries_of f.parts ≤ kept_at_most plan w lists self.now)) }
    {
        each_text_once(&self.texts);
        let kept = self.keep()?;
        let texts = labels_of(self.alloc, &self.texts)?;
        let frozen = kept.frozen(self.alloc, lines, texts)?;
        let workers = self.dataflow.workers() as u64;
        let formed = has_form(
            self.alloc,
            self.dataflow.plan(),
            workers,
            &frozen,
            &self.texts,
        )?;
        if formed { Ok(frozen) } else { Err(Memory) }
    }

    // Parts that go on from what others kept, with a table of the texts that its places name, to which those of the plan's
    // expressions come.
    fn of_kept(
        alloc: Global,
        plan: Plan,
        policy: Policy,
        batch: usize,
        workers: usize,
        texts: TextTable,
        kept: &Kept,
    ) -> Result<Parts, LoadFault>
        requires batch { 1 ≤ batch }
        requires workers { (1 ≤ workers) × (workers ≤ 16) }
        requires bounds { length kept.now.bounds ≡ length plan.streams }
        requires marks { length kept.now.marks ≡ length plan.streams }
        requires shown { EntriesArePlaced texts kept.now.output }
        ensures went { IfOk result (GoesOnFrom workers plan policy texts kept.now) }
        ensures run { IfOk result CanRun }
        ensures texts { IfOk result (λ e. e.texts ≡ with_texts texts (nodes_in_all plan.nodes)) }
        ensures plan { IfOk result (λ e. e.dataflow.plan ≡ plan) }
        ensures batch { IfOk result (λ e. e.dataflow.capacity ≡ batch) }
        ensures workers { IfOk result (λ e. e.dataflow.workers ≡ workers) }
        ensures thawed { IfOk result (λ e. e.dataflow.thawed ≡ true) }
        ensures sound { IfOk result (λ e. IsSoundKept workers plan kept.now) }
        ensures refused { IfErr result (λ fault. fault ≡ LoadFault.NotState →
            IsSoundKept workers plan kept.now → ⊥) }
    {
        let mut texts = texts;
        let ingress = match ingress_of(
            alloc,
            &plan,
            policy,
            batch,
            &kept.input,
            &kept.bounds,
            &kept.marks,
            kept.last,
        ) {
            Ok(ingress) => ingress,
            Err(fault) => return Err(fault),
        };
        let closed = time_reached(kept.last, closes(&plan, plan.root(), kept.last));
        let egress = match egress_of(alloc, &plan, &kept.output, closed) {
            Ok(egress) => egress,
            Err(fault) => return Err(fault),
        };
        let pools = Pools::new(alloc, MOST_COLUMNS, batch)?;
        let dataflow = match dataflow_of(
            alloc,
            plan,
            batch,
            workers,
            &mut texts,
            &kept.nodes,
            kept.last,
        ) {
            Ok(dataflow) => dataflow,
            Err(fault) => return Err(fault),
        };
        let row = Vec::new(alloc);
        Ok(Parts {
            alloc,
            texts,
            ingress,
            pools,
            dataflow,
            egress,
            closed,
            row,
        })
    }

    // Parts that go on from what others were frozen to.
    pub(crate) fn thaw(
        alloc: Global,
        plan: Plan,
        policy: Policy,
        batch: usize,
        workers: usize,
        frozen: Frozen,
    ) -> Result<Parts, LoadFault>
        requires batch { 1 ≤ batch }
        requires workers { (1 ≤ workers) × (workers ≤ 16) }
        ensures went { IfOk result (GoesOnFrom workers plan policy frozen.texts
            (kept_of workers plan frozen)) }
        ensures run { IfOk result CanRun }
        ensures texts { IfOk result (λ e. e.texts
            ≡ with_texts frozen.texts (nodes_in_all plan.nodes)) }
        ensures plan { IfOk result (λ e. e.dataflow.plan ≡ plan) }
        ensures batch { IfOk result (λ e. e.dataflow.capacity ≡ batch) }
        ensures workers { IfOk result (λ e. e.dataflow.workers ≡ workers) }
        ensures thawed { IfOk result (λ e. e.dataflow.thawed ≡ true) }
        ensures state { IfOk result (λ e. IsState workers plan frozen) }
        ensures refused { IfErr result (λ fault. fault ≡ LoadFault.NotState →
            IsState workers plan frozen → ⊥) }
    {
        let texts = match complete_table(alloc, &plan, workers as u64, &frozen) {
            Ok(texts) => texts,
            Err(fault) => return Err(fault),
        };
        let kept = Kept::of(alloc, &plan, workers as u64, frozen)?;
        match Parts::of_kept(alloc, plan, policy, batch, workers, texts, &kept) {
            Ok(parts) => Ok(parts),
            Err(fault) => Err(fault),
        }
    }
}
