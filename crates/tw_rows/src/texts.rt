// The table of all texts that cells speak of.
ghost use Rattle.std.specs.Prelude.{◌≡◌, ◌<◌, ◌^◌, ◌↔◌, ◌≢◌, [], ◌∷◌, ◌++◌, Some, IsNone, IsOk};
ghost use Rattle.std.specs.Prelude.{IfOk, OnOk, OnErr, IfSome, length, slice_get, AllPairs};
ghost use Rattle.std.specs.Prelude.{Contains};
ghost use Rattle.tw_rows.specs.Texts.{interned, BeginsWith};

use crate::memory::Memory;
use indexmap::IndexMap;
use std::alloc::Global;
use std::marker::Model;

/// A table of texts, each of which stands in it once. The place of a text stands for it in cells, and a text keeps its place
/// for good: nothing is ever taken out.
///
/// The texts are hashed with a seed that is the same in each run, since a new table takes nothing from the outside.
#[derive(Drop)]
pub struct TextTable {
    // A map to nothing and no set: each crate that names this table tells its type again, and that of a set is twice as long.
    texts: IndexMap<String, ()>,
}

impl Model for TextTable {
    ghost use Rattle.std.specs.Prelude.{List, ℕ, ◌≢◌, map, string_bytes, AllPairs};
    ghost use Rattle.indexmap.specs.IndexMap.{keys};

    ghost Value = { List (List ℕ) };

    ghost view = { λ t. map string_bytes (keys t.texts) };

    ghost invariant = { λ t. AllPairs (λ a b. a ≢ b) (map string_bytes (keys t.texts)) };
}

impl TextTable {
    /// A table with no text.
    pub fn new(alloc: Global) -> TextTable
        ensures { result ≡ [] }
    {
        TextTable {
            texts: IndexMap::new(alloc),
        }
    }

    /// The place of the text, which is added last where the table does not have it.
    pub fn intern(&mut self, text: &str) -> Result<u64, Memory>
        ensures place { IfOk result (λ id. slice_get self.new id ≡ Some text.now) }
        ensures table { OnOk result (self.new ≡ interned self.old text.now) }
        ensures known { Contains self.old text.now → IsOk result }
        ensures err { OnErr result (self.new ≡ self.old) }
        ensures begins { BeginsWith self.new self.old }
        ensures distinct { AllPairs (λ a b. a ≢ b) self.new }
    {
        match self.find(text) {
            Some(id) => Ok(id),
            None => self.add(text),
        }
    }

    // Adds a text that the table does not have.
    fn add(&mut self, text: &str) -> Result<u64, Memory>
        requires { ¬ (Contains self.old text.now) }
        ensures place { IfOk result (λ id. slice_get self.new id ≡ Some text.now) }
        ensures table { OnOk result (self.new ≡ self.old ++ text.now ∷ []) }
        ensures err { OnErr result (self.new ≡ self.old) }
        ensures distinct { AllPairs (λ a b. a ≢ b) self.new }
    {
        let alloc = *self.texts.allocator();
        let place = self.texts.len() as u64;
        self.texts.insert(text.to_string(alloc)?, ())?;
        Ok(place)
    }

    /// The place of the text, if the table has it.
    pub fn find(&self, text: &str) -> Option<u64>
        ensures none { IsNone result ↔ (¬ (Contains self.now text.now)) }
        ensures some { IfSome result (λ id. slice_get self.now id ≡ Some text.now) }
        ensures distinct { AllPairs (λ a b. a ≢ b) self.now }
    {
        match self.texts.get_index_of(text) {
            Some(place) => Some(place as u64),
            None => None,
        }
    }

    /// The text at the place.
    pub fn text(&self, id: u64) -> &str
        requires { id < length self.now }
        ensures { slice_get self.now id ≡ Some result.now }
    {
        self.texts.keys().as_slice()[id as usize].as_str()
    }

    /// How many texts there are.
    pub fn len(&self) -> u64
        ensures len { result ≡ length self.now }
        ensures small { result < 2 ^ 63 }
        ensures distinct { AllPairs (λ a b. a ≢ b) self.now }
    {
        self.texts.len() as u64
    }
}
