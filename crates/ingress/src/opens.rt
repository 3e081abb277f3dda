// Open starts: those that came and have no end yet.
ghost use Rattle.std.specs.Prelude.{◌≡◌, ◌<◌, ◌++◌, ◌-◌, ◌^◌, [], ◌∷◌, cond, length, min, drop, slice_get, IfOk, OnOk, OnErr};
ghost use Rattle.std.specs.Cmp.{partial_equiv_from_equiv, decided};
ghost use Rattle.std.specs.Hash as fed;
ghost use Rattle.std.specs.Hash.{same_Alike};
ghost use Rattle.tw_rows.specs.contracts.cells.CellsHash.TheImpl as cells_hash;
ghost use Rattle.ingress.specs.declared.opens.OpenKey.{OpenKey as Key};
ghost use Rattle.ingress.specs.OpenKeys.{same_key, same_key-Decides, starts_in, NoneIsEmpty};
ghost use Rattle.ingress.specs.Keeping.{opens_in};
ghost use Rattle.ingress.specs.Entering.{key_of};
ghost use Rattle.indexmap.specs.IndexMap.{IsUnique};

use indexmap::IndexMap;
use std::alloc::Global;
use std::collections::VecDeque;
use std::hash::{Hash, Hasher};
use tw_rows::{Cells, Datum, Memory, Time};

/// What the end line of an open start names: its stream, its start as it was given, and its cells.
pub struct OpenKey {
    pub stream: usize,
    pub given: Time,
    pub cells: Cells,
}

// By hand, so that its users cite this and not the destructors of its parts.
impl Drop for OpenKey {
    fn drop(self) {
        let OpenKey {
            stream: _,
            given: _,
            cells: _cells,
        } = self;
    }
}

impl PartialEq for OpenKey {
    ghost eq = { same_key };

    ghost laws = { partial_equiv_from_equiv (decided same_key same_key-Decides) };

    fn eq(&self, other: &OpenKey) -> bool {
        self.stream == other.stream && self.given == other.given && self.cells == other.cells
    }
}

impl Eq for OpenKey {
    ghost laws = { decided same_key same_key-Decides };
}

impl Hash for OpenKey {
    ghost hash_input = { λ k. fed.usize k.stream ++ (fed.u64 k.given ++ cells_hash.ghosts.hash_input k.cells) };

    ghost respects_eq = { (same_Alike (λ k. fed.usize k.stream ++ (fed.u64 k.given ++ cells_hash.ghosts.hash_input k.cells)) same_key-Decides).fed };

    fn hash<H: Hasher>(&self, state: &mut H) {
        self.stream.hash(state);
        self.given.word().hash(state);
        self.cells.hash(state);
    }
}

/// An open start: the start in use, and whether it was dropped.
#[derive(Clone, Copy, Debug, PartialEq, Eq)]
pub struct OpenStart {
    pub start: Time,
    pub dropped: bool,
}

/// The open starts, found by what end lines name. Of alike ones the earliest line comes first, and once all that a key names
/// have ended the key goes too.
#[derive(Drop)]
pub struct OpenStarts {
    pub(crate) starts: IndexMap<OpenKey, VecDeque<OpenStart>>,
    alloc: Global,
    ghost some: { NoneIsEmpty starts },
}

fn count(starts: &VecDeque<OpenStart>) -> u64
    ensures { result ≡ length starts.now.items }
{
    starts.len() as u64
}

impl OpenStarts {
    /// None.
    pub fn new(alloc: Global) -> OpenStarts
        ensures { (k : Key) → starts_in result.starts k ≡ [] }
    {
        OpenStarts {
            starts: IndexMap::new(alloc),
            alloc,
        }
    }

    /// The key of an event of these cells. Memory is taken only for more than 4.
    pub fn key(&self, stream: usize, given: Time, cells: &[Datum]) -> Result<OpenKey, Memory>
        ensures ok { IfOk result (λ key. key ≡ key_of stream given cells.now) }
        ensures err { OnErr result (4 < length cells.now) }
    {
        let cells = Cells::from_slice(self.alloc, cells)?;
        Ok(OpenKey {
            stream,
            given,
            cells,
        })
    }

    /// Adds an open start, after those that are alike.
    pub fn open(&mut self, key: OpenKey, start: OpenStart) -> Result<(), Memory>
        ensures ok { OnOk result ((k : Key) → starts_in self.new.starts k
            ≡ cond (same_key key k) (starts_in self.old.starts k ++ start ∷ [])
            (starts_in self.old.starts k)) }
        ensures err { OnErr result ((k : Key) →
            starts_in self.new.starts k ≡ starts_in self.old.starts k) }
    {
        if let Some(starts) = self.starts.get_mut(&key) {
            starts.push_back(start)?;
            return Ok(());
        }
        let mut starts = VecDeque::with_capacity(self.alloc, 1)?;
        starts.push_back(start)?;
        self.starts.insert(key, starts)?;
        Ok(())
    }

    /// How many open starts there are, or the greatest number where there are more. It goes through the keys.
    pub fn len(&self) -> u64
        ensures count { result ≡ min (length (opens_in self.now.starts.entries)) (2 ^ 64 - 1) }
        ensures unique { IsUnique same_key self.now.starts }
    {
        let mut len: u64 = 0;
        for (_, starts) in self.starts.iter() {
            len = len.saturating_add(count(starts));
        }
        len
    }

    /// The first of the open starts that the key names.
    pub fn first(&self, key: &OpenKey) -> Option<OpenStart>
        ensures { result ≡ slice_get (starts_in self.now.starts key.now) 0 }
    {
        let starts = self.starts.get(key)?;
        starts.front().copied()
    }

    /// Takes the first of the open starts that the key names out.
    pub fn close(&mut self, key: &OpenKey)
        ensures { (k : Key) → starts_in self.new.starts k
            ≡ cond (same_key key.now k) (drop 1 (starts_in self.old.starts k))
            (starts_in self.old.starts k) }
    {
        let Some(starts) = self.starts.get_mut(key) else {
            return;
        };
        starts.pop_front();
        if starts.is_empty() {
            self.starts.swap_remove(key);
        }
    }
}
