// What FILE has, read back: the places that a run goes on from, and what was frozen.
ghost use Rattle.std.specs.Prelude.{◌≡◌, ◌<◌, ◌∷◌, ◌++◌, [], ℕ, List, length, IfSome, IfNone, IfOk, IfErr};
ghost use Rattle.wire_lines.specs.Lines.{whole};
ghost use Rattle.frozen_state.specs.Forms.{AreApart};
ghost use Rattle.frozen_state.specs.Frozen.{FrozenView};
ghost use Rattle.checkpoint.specs.Text.{checkpoint_lines, IsOfForm};
ghost use Rattle.tempo_cli.specs.Feeding.{IsOwn};
ghost use Rattle.tempo_cli.specs.Keeping.{Places, AreLow, place_lines};
ghost use Rattle.tempo_cli.specs.Standing.{IsReadAs, IsFrozenAs, BeginsWith, BeginsState};
ghost use Rattle.tempo_cli.specs.KeptStatus.{IsRefused};

use crate::Status;
use crate::resuming::take_line;
use checkpoint::{Form, Reader, read_input_line, read_output_line};
use frozen_state::Frozen;
use memchr::memchr;
use std::alloc::Global;

/// What FILE has: the places that a run goes on from, and what was frozen.
#[derive(Drop)]
pub struct KeptState {
    pub input: u64,
    pub output: u64,
    pub frozen: Frozen,
    /// How many lines it has.
    pub lines: u64,
}

// The first line of the bytes, and the bytes behind its LF.
fn first_line(bytes: &[u8]) -> Option<(&[u8], &[u8])>
    ensures some { IfSome result (λ p. (whole bytes.now ≡ p.0.now ∷ whole p.1.now)
        × (length p.1.now < length bytes.now)) }
    ensures none { IfNone result (whole bytes.now ≡ []) }
{
    match memchr(b'\n', bytes) {
        Some(at) => Some((&bytes[..at], &bytes[at + 1..])),
        None => None,
    }
}

// What is frozen in a checkpoint, whose first line has the number behind that one, and how many lines there are then.
fn read_frozen(alloc: Global, form: Form, bytes: &[u8]) -> Result<(Frozen, u64), Status>
    requires { AreApart form.parts }
    ensures read { (f : FrozenView) → IsOfForm form f →
        whole bytes.now ≡ checkpoint_lines form.head f → IsFrozenAs f result }
    ensures begins { IfOk result (λ p. BeginsWith form p.0 (whole bytes.now)) }
    ensures own { IfErr result IsOwn }
    ensures refused { IfErr result IsRefused }
{
    let mut reader = Reader::new(alloc, form)?;
    reader.goes_on();
    let mut rest = bytes;
    let mut number: u64 = 2;
    'lines: while let Some((line, more)) = first_line(rest) {
        number = number.saturating_add(1);
        if let Some(frozen) = take_line(&mut reader, number, line)? {
            return Ok((frozen, number));
        }
        rest = more;
    }
    reader.goes_on();
    Err(Status::BadCheckpoint {
        line: number.saturating_add(1),
    })
}

// What FILE has, by its bytes.
pub(crate) fn read_state(alloc: Global, form: Form, bytes: &[u8]) -> Result<KeptState, Status>
    requires { AreApart form.parts }
    ensures read { (places : Places) (f : FrozenView) → IsOfForm form f → AreLow places →
        whole bytes.now ≡ place_lines places ++ checkpoint_lines form.head f →
        IsReadAs places f result }
    ensures begins { IfOk result (BeginsState form (whole bytes.now)) }
    ensures own { IfErr result IsOwn }
    ensures refused { IfErr result IsRefused }
{
    let Some((first, rest)) = first_line(bytes) else {
        return Err(Status::BadCheckpoint { line: 1 });
    };
    let Some(input) = read_input_line(first) else {
        return Err(Status::BadCheckpoint { line: 1 });
    };
    let Some((second, rest)) = first_line(rest) else {
        return Err(Status::BadCheckpoint { line: 2 });
    };
    let Some(output) = read_output_line(second) else {
        return Err(Status::BadCheckpoint { line: 2 });
    };
    let (frozen, lines) = read_frozen(alloc, form, rest)?;
    Ok(KeptState {
        input,
        output,
        frozen,
        lines,
    })
}
