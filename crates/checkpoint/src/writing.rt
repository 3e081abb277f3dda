// The writing of a checkpoint, line by line.
ghost use Rattle.std.specs.Prelude.{◌≡◌, ◌≢◌, ◌<◌, ◌≤◌, ℕ, [], length, slice_get, Some, drop};
ghost use Rattle.std.specs.Prelude.{IfOk, OnErr, IfSome, IfNone, vec_capacity};
ghost use Rattle.frozen_state.specs.declared.frozen.FrozenPart.{FrozenPart as OnePart};
ghost use Rattle.checkpoint.specs.Form.{FormView};
ghost use Rattle.checkpoint.specs.Writing.{entries_left, ends_left, texts_left, bounds_left};
ghost use Rattle.checkpoint.specs.Writing.{lines_left, Appends, WritesLine, WritesUpTo};
ghost use Rattle.checkpoint.specs.Writing.{LacksRoomFor, LacksRoomToFeed};

use crate::entry::push_entry_line;
use crate::form::Form;
use crate::head::push_end_line;
use crate::progress::{push_bound_line, push_time_line};
use crate::text::push_text_line;
use frozen_state::{Frozen, FrozenPart};
use tw_rows::Memory;

/// Where a writer of a checkpoint stands.
#[derive(Clone, Copy, Debug, PartialEq, Eq)]
pub enum Place {
    /// So many of the first lines were written, and the times not yet.
    Head(usize),
    /// The times were written, and so many streams.
    Bounds(usize),
    /// All streams were written, and so many texts.
    Texts(usize),
    /// All entries before that one of that part were written.
    Entries { part: usize, entry: usize },
    /// All was written.
    Done,
}

// The next entry from that one of that part on, if there is one: its part, and its number there.
fn next_entry(parts: &[FrozenPart], part: usize, entry: usize) -> Option<(usize, usize)>
    ensures part { IfSome result (λ t. t.0 < length parts.now) }
    ensures entry { IfSome result (λ t. (p : OnePart) → slice_get parts.now t.0 ≡ Some p →
        t.1 < length p.saved) }
    ensures left { IfSome result (λ t.
        entries_left (drop part parts.now) entry ≡ entries_left (drop t.0 parts.now) t.1) }
    ensures none { IfNone result (entries_left (drop part parts.now) entry ≡ []) }
{
    let mut from = entry;
    for at in part..parts.len() {
        if from < parts[at].saved.entries().len() {
            return Some((at, from));
        }
        from = 0;
    }
    None
}

// Appends the line of the next entry, or the last line.
fn push_entry(
    frozen: &Frozen,
    part: usize,
    entry: usize,
    out: &mut Vec<u8>,
) -> Result<Place, Memory>
    ensures ok { IfOk result (λ next. (form : FormView) →
        Appends (ends_left frozen.now part entry) (lines_left form frozen.now next)
        out.old.items out.new.items) }
    ensures room { vec_capacity out.old ≤ vec_capacity out.new }
    ensures full { OnErr result (LacksRoomFor (ends_left frozen.now part entry) out.old) }
{
    let parts = frozen.parts();
    let Some((part, entry)) = next_entry(parts, part, entry) else {
        push_end_line(out)?;
        return Ok(Place::Done);
    };
    let of = &parts[part];
    push_entry_line(out, of.owner, of.shard, &of.saved.entries()[entry])?;
    Ok(Place::Entries {
        part,
        entry: entry + 1,
    })
}

// Appends the line of the next text, or what follows.
fn push_text(frozen: &Frozen, number: usize, out: &mut Vec<u8>) -> Result<Place, Memory>
    ensures ok { IfOk result (λ next. (form : FormView) →
        Appends (texts_left frozen.now number) (lines_left form frozen.now next)
        out.old.items out.new.items) }
    ensures room { vec_capacity out.old ≤ vec_capacity out.new }
    ensures full { OnErr result (LacksRoomFor (texts_left frozen.now number) out.old) }
{
    let Some(text) = frozen.texts().get(number) else {
        return push_entry(frozen, 0, 0, out);
    };
    push_text_line(out, text.as_str())?;
    Ok(Place::Texts(number + 1))
}

// Appends the line of the next stream, or what follows.
fn push_bound(frozen: &Frozen, number: usize, out: &mut Vec<u8>) -> Result<Place, Memory>
    ensures ok { IfOk result (λ next. (form : FormView) →
        Appends (bounds_left frozen.now number) (lines_left form frozen.now next)
        out.old.items out.new.items) }
    ensures room { vec_capacity out.old ≤ vec_capacity out.new }
    ensures full { OnErr result (LacksRoomFor (bounds_left frozen.now number) out.old) }
{
    let Some(bound) = frozen.bounds().get(number) else {
        return push_text(frozen, 0, out);
    };
    let Some(mark) = frozen.marks().get(number) else {
        return push_text(frozen, 0, out);
    };
    push_bound_line(out, *bound, *mark)?;
    Ok(Place::Bounds(number + 1))
}

// Appends the next one of the first lines, or the times behind them.
fn push_head(
    form: &Form,
    frozen: &Frozen,
    number: usize,
    out: &mut Vec<u8>,
) -> Result<Place, Memory>
    ensures ok { IfOk result (λ next. Appends
        (lines_left form.now frozen.now (Place.Head number)) (lines_left form.now frozen.now next)
        out.old.items out.new.items) }
    ensures room { vec_capacity out.old ≤ vec_capacity out.new }
    ensures full { OnErr result
        (LacksRoomFor (lines_left form.now frozen.now (Place.Head number)) out.old) }
{
    let Some(line) = form.head_line(number) else {
        push_time_line(out, frozen.lines(), frozen.last())?;
        return Ok(Place::Bounds(0));
    };
    out.extend_from_slice(line)?;
    Ok(Place::Head(number + 1))
}

// Appends the next line from a place on.
fn push_line(form: &Form, frozen: &Frozen, place: Place, out: &mut Vec<u8>) -> Result<Place, Memory>
    requires { place ≢ Place.Done }
    ensures ok { IfOk result (λ next. Appends
        (lines_left form.now frozen.now place) (lines_left form.now frozen.now next)
        out.old.items out.new.items) }
    ensures room { vec_capacity out.old ≤ vec_capacity out.new }
    ensures full { OnErr result (LacksRoomFor (lines_left form.now frozen.now place) out.old) }
{
    match place {
        Place::Head(number) => push_head(form, frozen, number, out),
        Place::Bounds(number) => push_bound(frozen, number, out),
        Place::Texts(number) => push_text(frozen, number, out),
        Place::Entries { part, entry } => push_entry(frozen, part, entry, out),
        Place::Done => Ok(place),
    }
}

/// Appends the next line of the text from a place on, with its line feed, and answers the place behind it; None where all was
/// written. `Head(0)` is the place of the whole text.
pub fn write_line(
    form: &Form,
    frozen: &Frozen,
    place: Place,
    out: &mut Vec<u8>,
) -> Result<Option<Place>, Memory>
    ensures ok { IfOk result (WritesLine form.now frozen.now place out.old.items out.new.items) }
    ensures room { vec_capacity out.old ≤ vec_capacity out.new }
    // It takes no memory while the buffer has room for the line.
    ensures full { OnErr result (LacksRoomToFeed (lines_left form.now frozen.now place) out.old) }
{
    if matches!(place, Place::Done) {
        return Ok(None);
    }
    let next = push_line(form, frozen, place, out)?;
    out.push(b'\n')?;
    Ok(Some(next))
}

/// Where a place stands behind an entry, appends the lines of the entries behind it in its part, each with its line feed, and
/// answers the place behind them. At another place it appends nothing. So a part is written in one call, where nothing is done
/// between its lines.
pub fn write_entries(frozen: &Frozen, place: Place, out: &mut Vec<u8>) -> Result<Place, Memory>
    ensures { IfOk result (WritesUpTo frozen.now place out.old.items out.new.items) }
{
    let Place::Entries { part, entry } = place else {
        return Ok(place);
    };
    let Some(of) = frozen.parts().get(part) else {
        return Ok(place);
    };
    let entries = of.saved.entries();
    let mut at = entry;
    'rest: while at < entries.len() {
        push_entry_line(out, of.owner, of.shard, &entries[at])?;
        out.push(b'\n')?;
        at += 1;
    }
    Ok(Place::Entries { part, entry: at })
}
