// The lines of an input, fed to an engine as their bytes come.
ghost use Rattle.std.specs.Prelude.{◌≡◌, ◌≤◌, ◌<◌, ◌+◌, ◌++◌, ◌∷◌, ◌&&◌, IfOk, IfErr, IfSome};
ghost use Rattle.std.specs.Prelude.{IfNone, OnOk, Bool, List, ℕ, [], None, true, false, nat_eq};
ghost use Rattle.std.specs.Prelude.{length};
ghost use Rattle.wire_lines.specs.Lines.{HasNoLf};
ghost use Rattle.wire_lines.specs.Cutter.{Overlong};
ghost use Rattle.wire_lines.specs.Block.{block_lines};
ghost use Rattle.wire_lines.specs.Next.{next};
ghost use Rattle.tempo_engine.specs.Faults.{IsFaultOf};
ghost use Rattle.tempo_cli.specs.Table.{limit, IsDone, IsEnd};
ghost use Rattle.wire_lines.specs.Faults.{HasCause, IsOther};
ghost use Rattle.tempo_cli.specs.Feeding.{from_start, answers_to, Took, Holds, HasTaken, IsNumbered, WhateverGiven};
ghost use Rattle.tempo_cli.specs.Feeding.{WhateverHeld, WhateverEnded, GrowsBy, WantsBytes, Comes};
ghost use Rattle.tempo_cli.specs.Feeding.{BlockComes, BlockGives, header_may_come};
ghost use Rattle.tempo_cli.specs.Feeding.{Ended, HasLess, LineRules, WhateverGave, StepGives, StopsFor, TellsLine, IsOwn, StopsOwn};
ghost use Rattle.tempo_cli.specs.Halting.{StaysOpen, StopsGoing};

use crate::status::Status;
use plan_model::Plan;
use row_reader::BadLine;
use shard_apply::Gate;
use std::alloc::Global;
use std::thread::Threads;
use tempo_engine::{Engine, EngineFault, FedBlock, Options};
use tw_rows::Memory;
use wire_lines::{Cut, LineCutter, ReadFailed, Wire};

/// The most bytes of a line, its LF not counted.
pub const LONGEST: usize = 65536;

/// The most bytes that one read asks for.
pub const PIECE: u64 = 65536;

/// The most bytes of the input.
pub const LIMIT: u64 = 1 << 40;

/// A query at work on an input: bytes come in to it from a wire, and it hands out what is to be written.
pub struct Answering {
    pub alloc: Global,
    pub cutter: LineCutter,
    pub engine: Engine,
    pub header: bool,
    /// The number of the last line that another run took before this one, 0 where there was none.
    pub base: u64,
    /// How many lines of the input tell what that run was frozen to.
    pub skipped: u64,
}

// By hand, so that its users cite this and not the destructors of its parts.
impl Drop for Answering {
    fn drop(self) {
        let Answering {
            alloc: _,
            cutter: _cutter,
            engine: _engine,
            header: _,
            base: _,
            skipped: _,
        } = self;
    }
}

/// What the next line comes to.
#[derive(Drop)]
pub enum Step {
    /// All lines that came in were taken.
    More,
    /// These bytes are due.
    Out(Vec<u8>),
    /// No more lines are taken.
    Stop(Status),
}

// Whether the line of that number is a header.
fn is_header(header: bool, number: u64) -> bool
    ensures { result ≡ (header && nat_eq number 1) }
{
    header && number == 1
}

// Whether the next line may be a header, where so many bytes of lines were given: it stands in front of all other lines, and none
// stands behind a checkpoint.
fn may_be_header(header: bool, skipped: u64, passed: u64) -> bool
    ensures { result ≡ header_may_come header skipped passed }
{
    header && (skipped > 0 || passed == 0)
}

// The number that the engine has for the line of that number of the input: it goes on from those of a run before this one.
fn engine_number(base: u64, skipped: u64, line: u64) -> u64
    ensures { IsNumbered base skipped line result }
{
    base.saturating_add(line.saturating_sub(skipped))
}

// Feeds the line of that number; a header is not read.
pub(crate) fn feed<R: Threads + Sync, G: Gate>(
    rt: &R,
    alloc: Global,
    engine: &mut Engine,
    header: bool,
    number: u64,
    line: &[u8],
    gate: &G,
) -> Result<Vec<u8>, EngineFault>
    requires short { length line.now ≤ 65536 }
    requires no_feed { HasNoLf line.now }
    ensures took { IfOk result (λ _. WhateverGiven header number engine.old
        (λ q given. Took q (given ++ line.now ∷ []) engine.new)) }
    ensures text { IfOk result (λ out. WhateverGiven header number engine.old
        (λ q given. GrowsBy q given line.now out.items)) }
    ensures fault { IfErr result (λ f. WhateverGiven header number engine.old
        (λ q given. IsFaultOf f ((answers_to q).fault (given ++ line.now ∷ []) false))) }
    ensures open { StaysOpen engine.old engine.new }
    ensures fine { OnOk result (engine.old.fault ≡ None → engine.new.fault ≡ None) }
    ensures bad { engine.old.fault ≡ None →
        IfErr result (TellsLine engine.old.parts.dataflow.plan.streams number line.now) }
{
    if is_header(header, number) {
        return Ok(Vec::new(alloc));
    }
    engine.feed_line(rt, gate, number, line)
}

impl Answering {
    /// Nothing fed. With a header line 1 is not read.
    pub fn new(
        alloc: Global,
        plan: Plan,
        options: Options,
        header: bool,
    ) -> Result<Answering, Memory>
        requires batch { 1 ≤ options.batch }
        requires workers { (1 ≤ options.workers) × (options.workers ≤ 16) }
        ensures holds { IfOk result (λ s. Holds (from_start plan options.policy header) [] [] s) }
        ensures wants { IfOk result (λ s. WantsBytes s.cutter) }
        ensures going { IfOk result (λ s. s.engine.ended ≡ false) }
        ensures workers { IfOk result (λ s. s.engine.parts.dataflow.workers ≡ options.workers) }
    {
        let cutter = LineCutter::new(alloc, LONGEST, LIMIT)?;
        let engine = Engine::new(alloc, plan, options)?;
        Ok(Answering {
            alloc,
            cutter,
            engine,
            header,
            base: 0,
            skipped: 0,
        })
    }

    /// Reads the next bytes of a wire, so many at most, and answers how many they are: 0 is the end of the input. What their
    /// lines come to is asked for by `next_step`.
    pub fn read<W: Wire>(&mut self, wire: &mut W, most: usize) -> Result<usize, ReadFailed>
        requires wants { WantsBytes self.old.cutter }
        requires some { 0 < most }
        requires fits { most ≤ 65536 }
        ensures bound { IfOk result (λ n. n ≤ most) }
        ensures taken { HasTaken (W.journal wire.old) (W.journal wire.new) self.old self.new result }
        ensures longest { self.new.cutter.longest ≡ 65536 }
        ensures open { StaysOpen self.old.engine self.new.engine }
        ensures cause { HasCause (W.read_faults wire.old) (W.read_faults wire.new) result }
        ensures other { IsOther (W.write_faults wire.old) (W.write_faults wire.new) result }
    {
        self.cutter.read_from(wire, most)
    }

    /// What the next lines come to, as many of them as are taken together. None where the next one is taken alone, or no whole
    /// line is left.
    pub fn next_block<R: Threads + Sync, G: Gate>(&mut self, rt: &R, gate: &G) -> Option<FedBlock>
        requires longest { self.old.cutter.longest ≡ 65536 }
        ensures longest { self.new.cutter.longest ≡ 65536 }
        ensures comes { IfSome result (λ block. WhateverHeld self.old
            (λ q bytes given. BlockComes q bytes given self.new block)) }
        ensures gives { IfSome result (λ block. WhateverGave self.old
            (λ k bytes given. BlockGives k bytes self.new block)) }
        ensures less { IfSome result (λ _.
            length self.new.cutter.rest < length self.old.cutter.rest) }
        ensures none { IfNone result (self.new ≡ self.old) }
        ensures alone { IfNone result
            (header_may_come self.old.header self.old.skipped self.old.cutter.passed ≡ false →
            block_lines self.old.cutter ≡ []) }
        ensures open { StaysOpen self.old.engine self.new.engine }
    {
        if may_be_header(self.header, self.skipped, self.cutter.passed()) {
            return None;
        }
        let Some(block) = self.cutter.next_block() else {
            return None;
        };
        let first = engine_number(self.base, self.skipped, block.number);
        Some(self.engine.feed_block(rt, gate, first, block.bytes))
    }

    /// What the next line comes to.
    pub fn next_step<R: Threads + Sync, G: Gate>(&mut self, rt: &R, gate: &G) -> Step
        requires longest { self.old.cutter.longest ≡ 65536 }
        ensures longest { self.new.cutter.longest ≡ 65536 }
        ensures comes { WhateverHeld self.old (λ q bytes given. length bytes ≤ limit + 1 →
            Comes q bytes given self.new result) }
        ensures gives { WhateverGave self.old (λ k bytes given. length bytes ≤ limit + 1 →
            StepGives k bytes given self.new result) }
        ensures wants { result ≡ Step.More → WantsBytes self.new.cutter }
        ensures less { HasLess self.old.cutter self.new.cutter result }
        ensures long { (line : ℕ) → next self.old.cutter ≡ Overlong line → (number : ℕ)
            × IsNumbered self.old.base self.old.skipped line number
            × (result ≡ Step.Stop (Status.Malformed number BadLine.TooLong)) }
        ensures open { StaysOpen self.old.engine self.new.engine }
        ensures own { StopsOwn result }
    {
        let fed = match self.cutter.next_line() {
            Cut::More => return Step::More,
            Cut::TooMany => return Step::Stop(Status::InputTooLong),
            Cut::TooLong { number } => {
                return Step::Stop(too_long(engine_number(self.base, self.skipped, number)));
            }
            Cut::Line(line) => feed(
                rt,
                self.alloc,
                &mut self.engine,
                self.header,
                engine_number(self.base, self.skipped, line.number),
                line.bytes,
                gate,
            ),
        };
        match fed {
            Ok(out) => Step::Out(out),
            Err(fault) => Step::Stop(Status::from(fault)),
        }
    }

    /// What is due for the last line, where no LF ends it. The input has ended.
    pub fn last_line<R: Threads + Sync, G: Gate>(
        &mut self,
        rt: &R,
        gate: &G,
    ) -> Result<Vec<u8>, Status>
        requires wants { WantsBytes self.old.cutter }
        ensures ok { IfOk result (λ out. WhateverHeld self.old
            (λ q bytes given. Ended q bytes ((answers_to q).text given false ++ out.items)
            self.new)) }
        ensures err { IfErr result (λ status. WhateverHeld self.old
            (λ q bytes given. IsEnd (answers_to q) status bytes ((answers_to q).text given false)
            true)) }
        ensures err_frozen { IfErr result (λ status. WhateverHeld self.old (λ q bytes given.
            StopsGoing (answers_to q) status bytes ((answers_to q).text given false) true)) }
        ensures open { StaysOpen self.old.engine self.new.engine }
        ensures fine { OnOk result (self.old.engine.fault ≡ None → self.new.engine.fault ≡ None) }
        ensures own { IfErr result IsOwn }
        ensures reason { IfErr result (λ status.
            WhateverGave self.old (λ k bytes given. StopsFor k status bytes true)) }
    {
        let Some(line) = self.cutter.last_line() else {
            return Ok(Vec::new(self.alloc));
        };
        let out = feed(
            rt,
            self.alloc,
            &mut self.engine,
            self.header,
            engine_number(self.base, self.skipped, line.number),
            line.bytes,
            gate,
        )?;
        Ok(out)
    }

    /// What is due at the end, after the last line.
    pub fn finish<R: Threads + Sync, G: Gate>(
        &mut self,
        rt: &R,
        gate: &G,
    ) -> Result<Vec<u8>, Status>
        ensures ok { IfOk result (λ out. WhateverEnded self.old
            (λ q bytes written. IsDone (answers_to q) bytes (written ++ out.items) true)) }
        ensures err { IfErr result (λ status. WhateverEnded self.old
            (λ q bytes written. IsEnd (answers_to q) status bytes written true)) }
        ensures own { IfErr result IsOwn }
        ensures reason { IfErr result (λ status. self.old.engine.fault ≡ None →
            (k : LineRules) (bytes : List ℕ) (ended : Bool) → StopsFor k status bytes ended) }
    {
        let out = self.engine.finish(rt, gate)?;
        Ok(out)
    }
}

// The status where the line of that number has more bytes than a line may have.
fn too_long(number: u64) -> Status
    ensures { result ≡ Status.Malformed number BadLine.TooLong }
{
    Status::Malformed {
        line: number,
        cause: BadLine::TooLong,
    }
}
