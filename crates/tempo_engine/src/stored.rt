// Whether the entries of the parts are stored as the forms say.
ghost use Rattle.std.specs.Prelude.{◌≡◌, ◌↔◌, IsTrue, map, All};
ghost use Rattle.tw_rows.specs.Cells.{datum_kind};
ghost use Rattle.frozen_state.specs.Formed.{IsStoredIn, ArePartsOf};
ghost use Rattle.tempo_engine.specs.Named.{AreNamed};

use edge_stream::SavedEntry;
use frozen_state::{FrozenPart, PartForm};
use tw_rows::{CellKind, Datum};

// Whether the cells are of these kinds.
fn are_of_kinds(cells: &[Datum], kinds: &[CellKind]) -> bool
    ensures { IsTrue result ↔ map datum_kind cells.now ≡ kinds.now }
{
    if cells.len() != kinds.len() {
        return false;
    }
    for i in 0..cells.len() {
        if cells[i].cell_kind() != kinds[i] {
            return false;
        }
    }
    true
}

// Whether the entry is of one of the form's parts, and stored as that says.
fn is_stored(form: &PartForm, entry: &SavedEntry) -> bool
    ensures { IsTrue result ↔ IsStoredIn form.now.rows entry.now }
{
    match form.kinds(entry.part) {
        Some(kinds) => are_of_kinds(entry.cells.items(), kinds),
        None => false,
    }
}

// Whether all entries are.
fn are_entries_stored(form: &PartForm, entries: &[SavedEntry]) -> bool
    ensures { IsTrue result ↔ All (IsStoredIn form.now.rows) entries.now }
{
    for entry in entries {
        if !is_stored(form, entry) {
            return false;
        }
    }
    true
}

/// Whether the entries of the parts are stored as the forms of the parts say.
pub fn are_stored(forms: &[PartForm], parts: &[FrozenPart]) -> bool
    requires named { AreNamed forms.now parts.now }
    ensures { IsTrue result ↔ ArePartsOf forms.now parts.now }
{
    for i in 0..forms.len() {
        if !are_entries_stored(&forms[i], parts[i].saved.entries()) {
            return false;
        }
    }
    true
}
