// What the stages of a plan keep, saved and taken up again.
ghost use Rattle.std.specs.Prelude.{◌≡◌, ◌≤◌, ℕ, false, List, Some, [], length, map, slice_get, IfOk, IfErr, OnOk};
ghost use Rattle.tw_rows.specs.Bag.{total};
ghost use Rattle.plan_model.specs.declared.node.Node.{Node};
ghost use Rattle.shard_apply.specs.Whole.{standing_in, entries_in as entries_of_shards, AreNew};
ghost use Rattle.dataflow.specs.declared.stage.Stage.{Stage as Kept};
ghost use Rattle.dataflow.specs.Stages.{StandsAsMade, entries_in, reached};
ghost use Rattle.dataflow.specs.Shards.{RunsNode, RunAll};
ghost use Rattle.dataflow.specs.Saving.{CanSave, Saves, StoresRows, Loads, IsNoState, SavesAll, LoadsAll, RefusesOne};
ghost use Rattle.dataflow.specs.Saving.{SavesAlone, LoadsAlone, RefusesAlone, SavesShards, LoadsShards, RefusesShards};

use crate::closings::{closings_at, left_closing, right_closing};
use crate::stage::Stage;
use edge_stream::{LoadFault, Operator, Saved};
use plan_model::Plan;
use shard_apply::Sharded;
use std::alloc::Global;
use tw_rows::{Memory, Time};

// What a whole operator keeps, as the only list.
fn save_whole<O: Operator>(alloc: Global, operator: &O) -> Result<Vec<Saved>, Memory>
    requires works { (O.standing operator.now).has_failed ≡ false }
    ensures few { IfOk result (λ saved. total length saved.items ≤ O.entries operator.now) }
    ensures saves { IfOk result (λ saved. SavesAlone (O.standing operator.now)
        (O.keeps operator.now) (O.sound operator.now) (O.resumes operator.now) O.row_of_part
        saved.items) }
{
    O::laws();
    let mut saved = Vec::new(alloc);
    saved.push(operator.save()?)?;
    Ok(saved)
}

// What each shard of a node keeps, a list for each. Memory also tells that an entry is of a row of another shard, which no
// operator has that kept edges of its shard.
fn save_shards<O: Operator>(whole: &Sharded<O>) -> Result<Vec<Saved>, Memory>
    requires works { (standing_in O.standing whole.now).has_failed ≡ false }
    ensures few { IfOk result (λ saved. total length saved.items ≤ entries_of_shards O.entries
        whole.now) }
    ensures saves { IfOk result (λ saved.
        SavesShards O.standing O.keeps O.sound O.resumes O.row_of_part whole.now saved.items) }
{
    O::laws();
    let saved = whole.save()?;
    if whole.are_own(&saved)? {
        Ok(saved)
    } else {
        Err(Memory)
    }
}

// There is nothing to take up.
fn load_nothing(saved: &[Saved]) -> Result<(), LoadFault>
    ensures none { OnOk result (saved.now ≡ []) }
    ensures some { IfErr result (λ fault. saved.now ≡ [] → ⊥) }
{
    if saved.is_empty() {
        Ok(())
    } else {
        Err(LoadFault::NotState)
    }
}

// A whole operator takes up the only list.
fn load_whole<O: Operator>(
    operator: &mut O,
    saved: &[Saved],
    left_to: Time,
    right_to: Time,
) -> Result<(), LoadFault>
    requires opening { O.is_opening operator.old }
    ensures loads { OnOk result (LoadsAlone (O.standing operator.old) (O.standing operator.new)
        (O.keeps operator.new) (O.sound operator.old) (O.resumes operator.old) saved.now left_to
        right_to) }
    ensures refused { IfErr result (λ fault. fault ≡ LoadFault.NotState →
        RefusesAlone (O.sound operator.old) saved.now left_to right_to) }
{
    if saved.len() != 1 {
        return Err(LoadFault::NotState);
    }
    operator.load(&saved[0], left_to, right_to)
}

// Each shard of a node takes up its list.
fn load_shards<O: Operator>(
    whole: &mut Sharded<O>,
    saved: &[Saved],
    left_to: Time,
    right_to: Time,
) -> Result<(), LoadFault>
    requires opening { AreNew O.is_opening O.standing whole.old }
    ensures loads { OnOk result (LoadsShards O.standing O.keeps O.sound O.resumes O.row_of_part
        whole.old whole.new saved.now left_to right_to) }
    ensures refused { IfErr result (λ fault. fault ≡ LoadFault.NotState →
        RefusesShards O.standing O.sound O.row_of_part whole.old saved.now left_to right_to) }
    ensures shards { length whole.new.operators ≡ length whole.old.operators }
{
    if saved.len() != whole.shards() {
        return Err(LoadFault::NotState);
    }
    whole.load(saved, left_to, right_to)
}

impl Stage {
    /// What it keeps, as entries, and no more of them than it keeps: a list for each shard, one of a whole operator, and none
    /// of a Source, a Where or a Select. No step failed.
    pub fn save(&self, alloc: Global) -> Result<Vec<Saved>, Memory>
        requires { CanSave self.now }
        ensures few { IfOk result (λ saved. total length saved.items ≤ entries_in self.now) }
        ensures saves { IfOk result (λ saved. Saves self.now saved.items) }
        ensures stored { IfOk result (λ saved. StoresRows self.now saved.items) }
    {
        match self {
            Stage::Rows(_) => Ok(Vec::new(alloc)),
            Stage::Life(operator) => save_whole(alloc, operator),
            Stage::Union(operator) => save_whole(alloc, operator),
            Stage::Extend(operator) => save_whole(alloc, operator),
            Stage::Coalesce(operator) => save_whole(alloc, operator),
            Stage::Follow(operator) => save_whole(alloc, operator),
            Stage::Top(operator) => save_whole(alloc, operator),
            Stage::Join(whole) => save_shards(whole),
            Stage::Group(whole) => save_shards(whole),
            Stage::Anti(whole) => save_shards(whole),
            Stage::Clip(whole) => save_shards(whole),
            Stage::Session(whole) => save_shards(whole),
        }
    }

    /// Takes up what was saved, with sides that are closed up to the two times. The stage stands as it was made; after a fault
    /// it is of no more use.
    pub fn load(&mut self, saved: &[Saved], left_to: Time, right_to: Time) -> Result<(), LoadFault>
        requires { StandsAsMade self.old }
        ensures loads { OnOk result (Loads self.old self.new saved.now left_to right_to) }
        ensures refused { IfErr result (λ fault. fault ≡ LoadFault.NotState →
            IsNoState self.old saved.now left_to right_to) }
        ensures runs { (workers : ℕ) (n : Node) → RunsNode workers n self.old →
            RunsNode workers n self.new }
    {
        match self {
            Stage::Rows(_) => load_nothing(saved),
            Stage::Life(operator) => load_whole(operator, saved, left_to, right_to),
            Stage::Union(operator) => load_whole(operator, saved, left_to, right_to),
            Stage::Extend(operator) => load_whole(operator, saved, left_to, right_to),
            Stage::Coalesce(operator) => load_whole(operator, saved, left_to, right_to),
            Stage::Follow(operator) => load_whole(operator, saved, left_to, right_to),
            Stage::Top(operator) => load_whole(operator, saved, left_to, right_to),
            Stage::Join(whole) => load_shards(whole, saved, left_to, right_to),
            Stage::Group(whole) => load_shards(whole, saved, left_to, right_to),
            Stage::Anti(whole) => load_shards(whole, saved, left_to, right_to),
            Stage::Clip(whole) => load_shards(whole, saved, left_to, right_to),
            Stage::Session(whole) => load_shards(whole, saved, left_to, right_to),
        }
    }
}

/// What each stage keeps, in order of number.
pub(crate) fn save_all(alloc: Global, stages: &[Stage]) -> Result<Vec<Vec<Saved>>, Memory>
    requires { (i : ℕ) (s : Kept) → slice_get stages.now i ≡ Some s → CanSave s }
    ensures { IfOk result (λ saved. SavesAll stages.now (map (λ v. v.items) saved.items)) }
{
    let mut saved = Vec::new(alloc);
    for i in 0..stages.len() {
        saved.push(stages[i].save(alloc)?)?;
    }
    Ok(saved)
}

// The time, or 0 before the first punctuation.
fn time_reached(last: Time, closing: Time) -> Time
    ensures { result ≡ reached last closing }
{
    if last == Time::ZERO { last } else { closing }
}

/// Each stage takes up what was saved of it once the punctuation `last` was worked through. There are as many lists as stages.
pub(crate) fn load_all(
    plan: &Plan,
    stages: &mut Vec<Stage>,
    saved: &[Vec<Saved>],
    last: Time,
) -> Result<(), LoadFault>
    requires made { (i : ℕ) (s : Kept) → slice_get stages.old.items i ≡ Some s → StandsAsMade s }
    requires count { length stages.old.items ≡ length plan.now.nodes }
    requires many { length saved.now ≡ length plan.now.nodes }
    ensures loads { OnOk result (LoadsAll plan.now last stages.old.items stages.new.items
        (map (λ v. v.items) saved.now)) }
    ensures refused { IfErr result (λ fault. fault ≡ LoadFault.NotState →
        RefusesOne plan.now last stages.old.items (map (λ v. v.items) saved.now)) }
    ensures runs { (workers : ℕ) → RunAll workers plan.now.nodes stages.old.items →
        RunAll workers plan.now.nodes stages.new.items }
{
    let closings = closings_at(plan, last);
    for i in 0..plan.nodes().len() {
        let left_to = time_reached(last, left_closing(plan, &closings, i, last));
        let right_to = time_reached(last, right_closing(plan, &closings, i));
        match stages[i].load(&saved[i], left_to, right_to) {
            Ok(()) => {}
            Err(fault) => return Err(fault),
        }
    }
    Ok(())
}
