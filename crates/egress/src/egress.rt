// The output of an engine: the edges of the root come in, and the text of their changelog lines is rendered.
ghost use Rattle.std.specs.Prelude.{◌≡◌, ℕ, false, List, [], ◌++◌, IfOk, IfErr, OnOk, OnErr, is_err};
ghost use Rattle.tw_rows.specs.Cells.{ArePlaced};
ghost use Rattle.edge_stream.specs.Listing.{cells_of};
ghost use Rattle.edge_stream.specs.Taking.{batches_given};
ghost use Rattle.plan_laws.specs.Places.{EdgesArePlaced};
ghost use Rattle.egress.specs.Output.{Holds, IsPlacedIn, IsText, IsRendered, GoesOn, GoesOnWith, ShowsTo};
ghost use Rattle.egress.specs.Print.{punctuation_if};
ghost use Rattle.egress.specs.Saving.{IsSound, EntriesArePlaced, IsOpening, AreOpenRows, LoadsAs, SavesAs};

use crate::loading::load_entries;
use crate::open_rows::OpenRows;
use crate::saving::{copy_starts, save_rest, save_waiting};
use crate::waiting::Pending;
use batch::Pools;
use edge_stream::{EdgeList, LoadFault, Saved};
use row_reader::push_punctuation;
use std::alloc::Global;
use tw_rows::{Edge, Kind, Memory, TextTable, Time};

/// The changes of rows, from the edges that tell of them. `Holds` says of which edges they are, and what of them is
/// rendered. Once it was out of memory nothing more is asked.
pub struct Egress {
    rows: OpenRows,
    waiting: Pending,
    failed: bool,
}

// By hand, so that its users cite this and not the destructors of its parts.
impl Drop for Egress {
    fn drop(self) {
        let Egress {
            rows: _rows,
            waiting: _waiting,
            failed: _,
        } = self;
    }
}

fn push_punctuation_if(lines: &mut Vec<u8>, punctuation: Option<Time>) -> Result<(), Memory>
    ensures { OnOk result (lines.new.items ≡ lines.old.items ++ punctuation_if punctuation) }
{
    if let Some(time) = punctuation {
        push_punctuation(lines, "*", time)?;
    }
    Ok(())
}

impl Egress {
    /// Output of no edge, for rows of these kinds.
    pub fn new(alloc: Global, kinds: &[Kind]) -> Result<Egress, Memory>
        ensures kinds { IfOk result (λ e. e.rows.kinds.items ≡ kinds.now) }
        ensures holds { IfOk result (λ e. (texts : List (List ℕ)) → Holds texts [] 0 0 e) }
        ensures placed { IfOk result (λ e. (texts : List (List ℕ)) → IsPlacedIn texts e) }
        ensures ready { IfOk result (λ e. e.failed ≡ false) }
        ensures opening { IfOk result IsOpening }
    {
        Ok(Egress {
            rows: OpenRows::new(alloc, kinds)?,
            waiting: Pending::new(alloc),
            failed: false,
        })
    }

    /// Whether it was out of memory.
    pub fn failed(&self) -> bool
        ensures { result ≡ self.now.failed }
    {
        self.failed
    }

    // Shows all that is due below `to`, instant by instant.
    fn show_due(&mut self, to: Time, texts: &TextTable) -> Result<(), Memory>
        requires { IsPlacedIn texts.now self.old }
        ensures shown { OnOk result (ShowsTo texts.now to self.old self.new) }
        ensures kinds { self.new.rows.kinds ≡ self.old.rows.kinds }
        ensures failed { self.new.failed ≡ self.old.failed }
    {
        'instants: while let Some(due) = self.waiting.pop_due(to)? {
            let shown = self.rows.show_edges(due.at, due.edges, texts)?;
            self.waiting.keep_room(shown);
        }
        Ok(())
    }

    // Shows what is due, and then puts the edge, which comes no earlier, to the pending ones.
    fn take_one(&mut self, edge: Edge, due: Time, texts: &TextTable) -> Result<(), Memory>
        requires placed { ArePlaced texts.now edge.cells }
        requires waiting { IsPlacedIn texts.now self.old }
        ensures holds { OnOk result (GoesOnWith texts.now edge due self.old self.new) }
        ensures placed { OnOk result (IsPlacedIn texts.now self.new) }
        ensures kinds { self.new.rows.kinds ≡ self.old.rows.kinds }
        ensures failed { self.new.failed ≡ self.old.failed }
    {
        self.show_due(due, texts)?;
        self.waiting.put_singles(edge)?;
        Ok(())
    }

    fn take_edges(&mut self, edges: &EdgeList, to: Time, texts: &TextTable) -> Result<(), Memory>
        requires placed { EdgesArePlaced texts.now edges.now.edges }
        requires waiting { IsPlacedIn texts.now self.old }
        ensures holds { OnOk result (GoesOn texts.now edges.now.edges to self.old self.new) }
        ensures placed { OnOk result (IsPlacedIn texts.now self.new) }
        ensures kinds { self.new.rows.kinds ≡ self.old.rows.kinds }
        ensures failed { self.new.failed ≡ self.old.failed }
    {
        let mut cursor = edges.cursor();
        while let Some(edge) = cursor.next()? {
            let due = edge.sync.min(to);
            self.take_one(edge, due, texts)?;
        }
        self.show_due(to, texts)?;
        Ok(())
    }

    /// Takes the next edges, which come from the time up to which edges were taken before, and works out the changes up to
    /// `to`. Ends that are known ahead are pending. The columns go to the pools, which are of the list's capacity. Out of memory
    /// is an end: `failed` is then true.
    pub fn take(
        &mut self,
        pools: &mut Pools,
        edges: EdgeList,
        to: Time,
        texts: &TextTable,
    ) -> Result<(), Memory>
        requires ready { self.old.failed ≡ false }
        requires capacity { pools.old.capacity ≡ edges.capacity }
        requires placed { EdgesArePlaced texts.now edges.edges }
        requires waiting { IsPlacedIn texts.now self.old }
        ensures holds { OnOk result (GoesOn texts.now edges.edges to self.old self.new) }
        ensures placed { OnOk result (IsPlacedIn texts.now self.new) }
        ensures kinds { self.new.rows.kinds.items ≡ self.old.rows.kinds.items }
        ensures given { OnOk result (pools.new ≡ batches_given edges.batches pools.old
            (cells_of edges)) }
        ensures pools { OnErr result (pools.new ≡ pools.old) }
        ensures capacity { pools.new.capacity ≡ pools.old.capacity }
        ensures limit { pools.new.limit ≡ pools.old.limit }
        ensures failed { self.new.failed ≡ is_err result }
    {
        self.failed = true;
        self.take_edges(&edges, to, texts)?;
        edges.give_back(pools);
        self.failed = false;
        Ok(())
    }

    /// The text of the changes that were taken and not yet rendered, and then a punctuation line, if there is a time for
    /// it. The next text begins with as much room as this one took. Out of memory is an end: `failed` is then true.
    pub fn render(&mut self, punctuation: Option<Time>) -> Result<Vec<u8>, Memory>
        requires ready { self.old.failed ≡ false }
        ensures text { IfOk result (λ bytes. IsText self.old punctuation bytes.items) }
        ensures holds { OnOk result (IsRendered self.old self.new) }
        ensures placed { (texts : List (List ℕ)) → IsPlacedIn texts self.old →
            IsPlacedIn texts self.new }
        ensures kinds { self.new.rows.kinds.items ≡ self.old.rows.kinds.items }
        ensures failed { self.new.failed ≡ is_err result }
    {
        self.failed = true;
        let next = Vec::with_capacity(self.rows.alloc, self.rows.lines.len())?;
        let mut text = std::mem::replace(&mut self.rows.lines, next);
        push_punctuation_if(&mut text, punctuation)?;
        self.failed = false;
        Ok(text)
    }

    /// An entry for each row that is alive just before the time up to which the edges were taken, with its end where that
    /// is known. All that was taken is rendered.
    pub fn save(&self) -> Result<Saved, Memory>
        requires { self.now.failed ≡ false }
        ensures resumes { IfOk result (λ saved. SavesAs self.now saved) }
        ensures few { IfOk result (λ saved. AreOpenRows self.now saved) }
    {
        let (_, last) = Time::bounds();
        // Most rows have one start.
        let mut saved = Saved::with_capacity(self.rows.alloc, self.rows.starts.len())?;
        // Where no end is known no start is taken out, and no copy is made to take them from.
        if self.waiting.is_empty() {
            save_rest(&mut saved, &self.rows.starts, last)?;
            return Ok(saved);
        }
        let mut starts = copy_starts(&self.rows.starts)?;
        let mut waiting = self.waiting.copy()?;
        save_waiting(&mut saved, &mut starts, &mut waiting, last)?;
        save_rest(&mut saved, &starts, last)?;
        Ok(saved)
    }

    /// Takes up what was saved; the next edges come from that time on. After a fault it stands as it was made.
    pub fn load(&mut self, saved: &Saved, closed: Time) -> Result<(), LoadFault>
        requires { IsOpening self.old }
        ensures holds { OnOk result (LoadsAs self.old saved.now closed self.new) }
        ensures placed { OnOk result ((texts : List (List ℕ)) → EntriesArePlaced texts saved.now →
            IsPlacedIn texts self.new) }
        ensures sound { OnOk result (IsSound self.old.rows.kinds.items saved.now closed) }
        ensures refused { IfErr result (λ fault. fault ≡ LoadFault.NotState →
            IsSound self.old.rows.kinds.items saved.now closed → ⊥) }
        ensures opening { OnErr result (IsOpening self.new) }
        ensures ready { OnOk result (self.new.failed ≡ false) }
        ensures kinds { self.new.rows.kinds.items ≡ self.old.rows.kinds.items }
    {
        let loaded = load_entries(self.rows.alloc, saved.entries(), &self.rows.kinds, closed)?;
        self.rows.starts = loaded.starts;
        self.waiting = loaded.waiting;
        Ok(())
    }
}
