// A line, and lines that stand one behind the other, through the parts of an engine.
ghost use Rattle.std.specs.Prelude.{◌≡◌, ◌≢◌, ◌<◌, ◌≤◌, ◌∷◌, ◌++◌, [], List, ℕ, All, false, length};
ghost use Rattle.std.specs.Prelude.{IfSome, IfNone, IfOk, IfErr, OnOk, OnErr};
ghost use Rattle.plan_model.specs.IsPlan.{PlanParts};
ghost use Rattle.admission.specs.Entries.{Told};
ghost use Rattle.admission.specs.Progress.{fault as fault_of};
ghost use Rattle.tempo_engine.specs.Output.{told};
ghost use Rattle.tempo_engine.specs.Faults.{IsFaultOf, IsBadOf};
ghost use Rattle.tempo_engine.specs.Fed.{last_number};
ghost use Rattle.tempo_engine.specs.Block.{between_feeds, told_block, Appends, GrowsWith, StopsIn, BadIn};

use crate::fault::EngineFault;
use crate::parts::Parts;
use memchr::memchr;
use shard_apply::Gate;
use std::thread::Threads;

/// What the lines of a block come to: the bytes by which the text grows, and the fault of the first line that has one. The bytes
/// are then those of the lines before it.
#[derive(Drop)]
pub struct FedBlock {
    pub text: Vec<u8>,
    pub fault: Option<EngineFault>,
}

// The first of the lines between which LFs stand, and those behind it, where there are more.
fn split_line(lines: &[u8]) -> (&[u8], Option<&[u8]>)
    ensures no_feed { All (λ b. b ≢ 10) result.0.now }
    ensures first { (more : List (List ℕ)) × (between_feeds lines.now ≡ result.0.now ∷ more) }
    ensures more { IfSome result.1 (λ more. (length more.now < length lines.now)
        × (between_feeds lines.now ≡ result.0.now ∷ between_feeds more.now)) }
    ensures none { IfNone result.1 (between_feeds lines.now ≡ result.0.now ∷ []) }
{
    match memchr(b'\n', lines) {
        Some(at) => (&lines[..at], Some(&lines[at + 1..])),
        None => (lines, None),
    }
}

impl Parts {
    ghost use Rattle.tempo_engine.specs.Went.{HasFed, Further, WhateverFed, CanRun, TookLines};

    // Takes the line of that number, and works through the punctuation that it makes due: the bytes by which the text grows are
    // put behind it.
    fn feed_line<R: Threads + Sync, G: Gate>(
        &mut self,
        rt: &R,
        gate: &G,
        number: u64,
        line: &[u8],
        text: &mut Vec<u8>,
    ) -> Result<(), EngineFault>
        requires short { length line.now ≤ 65536 }
        requires no_feed { All (λ b. b ≢ 10) line.now }
        requires run { CanRun self.old }
        requires took { TookLines self.old }
        ensures run { OnOk result (CanRun self.new) }
        ensures thawed { self.new.dataflow.thawed ≡ self.old.dataflow.thawed }
        ensures plan { self.new.dataflow.plan ≡ self.old.dataflow.plan }
        ensures workers { self.new.dataflow.workers ≡ self.old.dataflow.workers }
        ensures fed { OnOk result (WhateverFed self.old
            (λ plan policy lines given lists. Further given lists
            (λ more_given more_lists. HasFed plan policy (lines ++ told plan number line.now ∷ [])
            more_given more_lists self.new))) }
        ensures text { OnOk result (Appends text.old.items text.new.items
            (λ bytes. WhateverFed self.old (λ plan policy lines given lists.
            GrowsWith plan policy lines (told plan number line.now ∷ []) bytes))) }
        ensures kept { OnErr result (text.new.items ≡ text.old.items) }
        ensures fault { IfErr result (λ f. WhateverFed self.old (λ plan policy lines given lists.
            IsFaultOf f (fault_of plan policy (lines ++ told plan number line.now ∷ []) false))) }
        ensures bad { IfErr result (IsBadOf self.old.dataflow.plan number line.now) }
    {
        match self.take_line(number, line) {
            Ok(()) => {}
            Err(fault) => return Err(fault),
        }
        match self.ingress.due() {
            None => Ok(()),
            Some(p) => match self.punctuate(rt, gate, p) {
                Ok(bytes) => match text.extend_from_slice(&bytes) {
                    Ok(()) => Ok(()),
                    Err(_) => Err(EngineFault::Memory),
                },
                Err(fault) => Err(EngineFault::of_plan(p, &fault)),
            },
        }
    }

    // Takes the lines between which LFs stand, of which the first has that number, and answers the number of the last one. The
    // bytes by which the text grows come into `text`, which is empty before.
    pub(crate) fn feed_lines<R: Threads + Sync, G: Gate>(
        &mut self,
        rt: &R,
        gate: &G,
        first: u64,
        lines: &[u8],
        text: &mut Vec<u8>,
    ) -> Result<u64, EngineFault>
        requires short { All (λ l. length l ≤ 65536) (between_feeds lines.now) }
        requires run { CanRun self.old }
        requires took { TookLines self.old }
        requires empty { text.old.items ≡ [] }
        ensures run { OnOk result (CanRun self.new) }
        ensures thawed { self.new.dataflow.thawed ≡ self.old.dataflow.thawed }
        ensures plan { self.new.dataflow.plan ≡ self.old.dataflow.plan }
        ensures workers { self.new.dataflow.workers ≡ self.old.dataflow.workers }
        ensures last { IfOk result (λ last. (plan : PlanParts) (before : List Told) →
            last ≡ last_number (before ++ told_block plan first lines.now)) }
        ensures fed { OnOk result (WhateverFed self.old (λ plan policy before given lists.
            Further given lists (λ more_given more_lists. HasFed plan policy
            (before ++ told_block plan first lines.now) more_given more_lists self.new))) }
        ensures text { OnOk result (WhateverFed self.old (λ plan policy before given lists.
            GrowsWith plan policy before (told_block plan first lines.now) text.new.items)) }
        ensures fault { IfErr result (λ f. WhateverFed self.old
            (λ plan policy before given lists. StopsIn plan policy before first
            (between_feeds lines.now) text.new.items f)) }
        ensures bad { IfErr result (BadIn self.old.dataflow.plan first
            (between_feeds lines.now)) }
    {
        let mut number = first;
        let mut rest = lines;
        'lines: loop {
            let (line, more) = split_line(rest);
            match self.feed_line(rt, gate, number, line, text) {
                Ok(()) => {}
                Err(fault) => return Err(fault),
            }
            match more {
                None => return Ok(number),
                Some(behind) => {
                    rest = behind;
                    number = number.saturating_add(1);
                }
            }
        }
    }
}
