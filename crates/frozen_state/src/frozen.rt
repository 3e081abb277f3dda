// What an engine keeps.
ghost use Rattle.std.specs.Prelude.{◌≡◌, ◌<◌, [], ◌∷◌, ◌++◌, length, OnOk, OnErr};
ghost use Rattle.frozen_state.specs.Frozen.{FrozenView, with_entry};

use crate::owner::Owner;
use edge_stream::{Saved, SavedEntry};
use std::alloc::Global;
use std::marker::Model;
use tw_rows::{Label, Memory, Time};

/// What one owner keeps, or one shard of it, as entries.
#[derive(Drop)]
pub struct FrozenPart {
    pub owner: Owner,
    /// The shard of the owner, which is 0 where it has none.
    pub shard: u64,
    pub saved: Saved,
}

/// What an engine keeps once it took some lines: the number of the last line, which is 0 where there was none, the last
/// punctuation, the bound and the mark of each stream, the texts by place, and the entries of its parts.
pub struct Frozen {
    lines: u64,
    last: Time,
    bounds: Vec<Time>,
    marks: Vec<Time>,
    texts: Vec<Label>,
    parts: Vec<FrozenPart>,
}

// By hand, so that its users cite this and not the destructors of its parts.
impl Drop for Frozen {
    fn drop(self) {
        let Frozen {
            lines: _,
            last: _,
            bounds: _bounds,
            marks: _marks,
            texts: _texts,
            parts: _parts,
        } = self;
    }
}

impl Model for Frozen {
    ghost use Rattle.frozen_state.specs.Frozen.{FrozenView};

    ghost Value = { FrozenView };

    ghost view = { λ f. record {
      lines = f.lines;
      last = f.last;
      bounds = f.bounds.items;
      marks = f.marks.items;
      texts = f.texts.items;
      parts = f.parts.items;
    } };
}

impl Frozen {
    /// What has these parts. It takes no memory.
    pub fn new(
        lines: u64,
        last: Time,
        bounds: Vec<Time>,
        marks: Vec<Time>,
        texts: Vec<Label>,
        parts: Vec<FrozenPart>,
    ) -> Frozen
        ensures { result ≡ record {
          lines = lines;
          last = last;
          bounds = bounds.items;
          marks = marks.items;
          texts = texts.items;
          parts = parts.items;
        } }
    {
        Frozen {
            lines,
            last,
            bounds,
            marks,
            texts,
            parts,
        }
    }

    /// The number of the last line, 0 where there was none.
    pub fn lines(&self) -> u64
        ensures { result ≡ self.now.lines }
    {
        self.lines
    }

    /// The last punctuation, 0 before the first one.
    pub fn last(&self) -> Time
        ensures { result ≡ self.now.last }
    {
        self.last
    }

    /// The bound of each stream.
    pub fn bounds(&self) -> &[Time]
        ensures { result.now ≡ self.now.bounds }
    {
        &self.bounds
    }

    /// The mark of each stream.
    pub fn marks(&self) -> &[Time]
        ensures { result.now ≡ self.now.marks }
    {
        &self.marks
    }

    /// The texts by place.
    pub fn texts(&self) -> &[Label]
        ensures { result.now ≡ self.now.texts }
    {
        &self.texts
    }

    /// The parts, those of the input first and those of the output last.
    pub fn parts(&self) -> &[FrozenPart]
        ensures { result.now ≡ self.now.parts }
    {
        &self.parts
    }

    /// The bounds, the marks and the parts, taken out of it.
    pub fn into_parts(self) -> (Vec<Time>, Vec<Time>, Vec<FrozenPart>)
        ensures bounds { result.0.items ≡ self.bounds }
        ensures marks { result.1.items ≡ self.marks }
        ensures parts { result.2.items ≡ self.parts }
    {
        let Frozen {
            lines: _,
            last: _,
            bounds,
            marks,
            texts: _texts,
            parts,
        } = self;
        (bounds, marks, parts)
    }

    /// Sets the number of the last line and the last punctuation.
    pub fn set_times(&mut self, lines: u64, last: Time)
        ensures { self.new ≡ record self.old { lines = lines; last = last } }
    {
        self.lines = lines;
        self.last = last;
    }

    /// Adds a stream with its bound and its mark. Out of memory it stays as it was.
    pub fn push_bound(&mut self, bound: Time, mark: Time) -> Result<(), Memory>
        ensures ok { OnOk result (self.new ≡ record self.old {
          bounds = self.old.bounds ++ bound ∷ [];
          marks = self.old.marks ++ mark ∷ [];
        }) }
        ensures err { OnErr result (self.new ≡ self.old) }
    {
        self.bounds.push(bound)?;
        match self.marks.push(mark) {
            Ok(()) => Ok(()),
            Err(failed) => {
                self.bounds.pop();
                Err(Memory::from(failed))
            }
        }
    }

    /// Adds a text last. Out of memory it stays as it was.
    pub fn push_text(&mut self, text: Label) -> Result<(), Memory>
        ensures ok { OnOk result (self.new ≡ record self.old {
          texts = self.old.texts ++ text ∷ [];
        }) }
        ensures err { OnErr result (self.new ≡ self.old) }
    {
        self.texts.push(text)?;
        Ok(())
    }

    /// Adds an entry last to the part of that number. Out of memory it stays as it was.
    pub fn push_entry(&mut self, at: usize, entry: SavedEntry) -> Result<(), Memory>
        requires { at < length self.old.parts }
        ensures ok { OnOk result
            (self.new ≡ record self.old { parts = with_entry at entry self.old.parts }) }
        ensures err { OnErr result (self.new ≡ self.old) }
    {
        self.parts[at].saved.push(entry)?;
        Ok(())
    }
}
