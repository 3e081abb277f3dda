// Whose the parts are, and which texts they name.
ghost use Rattle.std.specs.Prelude.{◌≡◌, ◌↔◌, IsTrue, All};
ghost use Rattle.tw_rows.specs.Cells.{IsPlaced, ArePlaced};
ghost use Rattle.tempo_engine.specs.Named.{AreNamed, PartsArePlaced};

use edge_stream::SavedEntry;
use frozen_state::{FrozenPart, PartForm};
use tw_rows::{Datum, TextTable};

/// Whether the parts are those of the forms, in their order, by owner and shard.
pub fn are_named(forms: &[PartForm], parts: &[FrozenPart]) -> bool
    ensures { IsTrue result ↔ AreNamed forms.now parts.now }
{
    if forms.len() != parts.len() {
        return false;
    }
    for i in 0..forms.len() {
        let part = &parts[i];
        if !forms[i].is_of(part.owner, part.shard) {
            return false;
        }
    }
    true
}

// Whether the datum is no place without a text.
fn is_placed(datum: Datum, texts: &TextTable) -> bool
    ensures { IsTrue result ↔ IsPlaced texts.now datum }
{
    match datum {
        Datum::Text(place) => place < texts.len(),
        Datum::Int(_) | Datum::Bool(_) => true,
    }
}

// Whether each place in the cells is one of the texts.
fn are_cells_placed(cells: &[Datum], texts: &TextTable) -> bool
    ensures { IsTrue result ↔ ArePlaced texts.now cells.now }
{
    for datum in cells {
        if !is_placed(*datum, texts) {
            return false;
        }
    }
    true
}

// Whether each place in the entries is.
fn are_entries_placed(entries: &[SavedEntry], texts: &TextTable) -> bool
    ensures { IsTrue result ↔ All (λ e. ArePlaced texts.now e.cells) entries.now }
{
    for entry in entries {
        if !are_cells_placed(entry.cells.items(), texts) {
            return false;
        }
    }
    true
}

/// Whether each place in the entries of the parts is one of the texts.
pub fn are_placed(parts: &[FrozenPart], texts: &TextTable) -> bool
    ensures { IsTrue result ↔ PartsArePlaced texts.now parts.now }
{
    for part in parts {
        if !are_entries_placed(part.saved.entries(), texts) {
            return false;
        }
    }
    true
}
