// What the types keep of what is frozen. The calls do nothing but tell a proof of it.
ghost use Rattle.std.specs.Prelude.{◌<◌, ◌≤◌, ◌^◌, ℕ, List, All};
ghost use Rattle.std.specs.Str.{IsUtf8};
ghost use Rattle.tw_rows.specs.Instant.{inf};
ghost use Rattle.checkpoint.specs.Lines.{IsOwner};
ghost use Rattle.plan_model.specs.IsPlan.{PlanParts};
ghost use Rattle.admission.specs.declared.policy.Policy.{Policy};
ghost use Rattle.frozen_state.specs.Formed.{IsFormed};
ghost use Rattle.checkpoint.specs.Form.{form_of};
ghost use Rattle.checkpoint.specs.Text.{IsOfForm};
ghost use Rattle.checkpoint.specs.Values.{IsDatum, IsEntryValue, IsPartValue, IsFrozenValue};

use edge_stream::SavedEntry;
use frozen_state::{Frozen, FrozenPart, Owner};
use tw_rows::{Datum, Label, Time};

fn see_number(_number: u64)
    ensures { _number < 2 ^ 64 }
{}

fn see_time(time: Time)
    ensures { time ≤ inf }
{
    let _ = time.word();
}

fn see_times(times: &[Time])
    ensures { All (λ t. t ≤ inf) times.now }
{
    for time in times {
        see_time(*time);
    }
}

fn see_datum(datum: Datum)
    ensures { IsDatum datum }
{
    match datum {
        Datum::Int(_) => {}
        Datum::Bool(_) => {}
        Datum::Text(_) => {}
    }
}

fn see_cells(cells: &[Datum])
    ensures { All IsDatum cells.now }
{
    for datum in cells {
        see_datum(*datum);
    }
}

fn see_entry(entry: &SavedEntry)
    ensures { IsEntryValue entry.now }
{
    see_number(entry.part);
    see_time(entry.sync);
    see_time(entry.other);
    see_cells(entry.cells.items());
}

fn see_entries(entries: &[SavedEntry])
    ensures { All IsEntryValue entries.now }
{
    for entry in entries {
        see_entry(entry);
    }
}

fn see_owner(owner: Owner)
    ensures { IsOwner owner }
{
    match owner {
        Owner::In => {}
        Owner::Node(_) => {}
        Owner::Out => {}
    }
}

fn see_part(part: &FrozenPart)
    ensures { IsPartValue part.now }
{
    see_owner(part.owner);
    see_number(part.shard);
    see_entries(part.saved.entries());
}

fn see_parts(parts: &[FrozenPart])
    ensures { All IsPartValue parts.now }
{
    for part in parts {
        see_part(part);
    }
}

fn see_text(_text: &str)
    ensures { IsUtf8 _text.now }
{}

fn see_texts(texts: &[Label])
    ensures { All IsUtf8 texts.now }
{
    for text in texts {
        see_text(text.as_str());
    }
}

// Whatever is frozen has times, numbers, data and texts as their types keep them.
fn see_frozen(frozen: &Frozen)
    ensures { IsFrozenValue frozen.now }
{
    see_time(frozen.last());
    see_times(frozen.bounds());
    see_times(frozen.marks());
    see_texts(frozen.texts());
    see_parts(frozen.parts());
}

/// What is formed has a text, of the form of its query, options and plan. The call goes through it and does nothing but tell
/// a proof of this.
pub fn formed_has_text(frozen: &Frozen)
    ensures { (query : List ℕ) (workers : ℕ) (policy : Policy) (plan : PlanParts) →
        IsFormed workers plan frozen.now → frozen.now.lines ≤ 2 ^ 62 →
        IsOfForm (form_of query workers policy plan) frozen.now }
{
    see_frozen(frozen);
}
