// A few rows of a side that are alive, each with its end.
ghost use Rattle.std.specs.Prelude.{◌≡◌, ◌<◌, ◌≤◌, ◌+◌, ℕ, [], nat_eq, nat_le, nat_lt, min, not, true, length, slice_index_or};
ghost use Rattle.std.specs.Prelude.{IfOk, IfSome, IfNone, OnOk};
ghost use Rattle.tw_rows.specs.Bag.{total};
ghost use Rattle.tw_rows.specs.Instant.{inf};
ghost use Rattle.tw_rows.specs.Words.{word_of_cells};
ghost use Rattle.edge_history.specs.Order.{failing};
ghost use Rattle.synopsis.specs.Held.{key_of as key_data};
ghost use Rattle.temporal_join.specs.declared.lives.Life.{Life};
ghost use Rattle.temporal_join.specs.Lives.{is_marked, lasts, ends_from, ends_at, AreLives};

use std::alloc::Global;
use std::marker::Model;
use tw_rows::{Edge, Memory, Time};

/// A row that is alive: its start and its end as an interval, whose end is infinity where none is known, and the word of its
/// key, which is compared before the key.
#[derive(Drop)]
pub(crate) struct Life {
    pub(crate) edge: Edge,
    pub(crate) word: u64,
}

/// A few rows of a side with their ends. Contracts see the key columns, the rows, and a time before which none ends.
pub(crate) struct Lives {
    columns: Vec<usize>,
    lives: Vec<Life>,
    next: Time,
}

// By hand, so that crates that let one go cite this and not the destructors of its parts.
impl Drop for Lives {
    fn drop(self) {
        let Lives {
            columns: _columns,
            lives: _lives,
            next: _,
        } = self;
    }
}

impl Model for Lives {
    ghost use Rattle.temporal_join.specs.Lives.{LivesView, AreLives};

    ghost Value = { LivesView };

    ghost view = { λ l. record {
      columns = l.columns.items;
      lives = l.lives.items;
      next = l.next;
    } };

    ghost invariant = { λ l. AreLives l.columns.items l.lives.items l.next };
}

pub(crate) fn lesser(a: Time, b: Time) -> Time
    ensures { result ≡ min a b }
{
    if a < b { a } else { b }
}

// The least end.
fn least(lives: &[Life]) -> Time
    ensures below { failing (ends_from result) lives.now ≡ 0 }
    ensures above { (t : ℕ) → t ≤ inf → failing (ends_from t) lives.now ≡ 0 → t ≤ result }
{
    let mut least = Time::bounds().1;
    for life in lives {
        least = lesser(least, life.edge.other);
    }
    least
}

// The place of the first row that ends at the time.
fn place_of(lives: &[Life], t: Time) -> Option<usize>
    ensures found { IfSome result (λ i. i < length lives.now) }
    ensures ends { IfSome result (λ i. (d : Life) →
        ends_at t (slice_index_or lives.now i d) ≡ true) }
    ensures none { IfNone result (failing (λ l. not (ends_at t l)) lives.now ≡ 0) }
{
    for i in 0..lives.len() {
        if lives[i].edge.other == t {
            return Some(i);
        }
    }
    None
}

impl Lives {
    /// No rows, by these key columns.
    pub(crate) fn new(alloc: Global, columns: &[usize]) -> Result<Lives, Memory>
        ensures columns { IfOk result (λ l. l.columns ≡ columns.now) }
        ensures lives { IfOk result (λ l. l.lives ≡ []) }
    {
        Ok(Lives {
            columns: Vec::from_slice(alloc, columns)?,
            lives: Vec::new(alloc),
            next: Time::bounds().1,
        })
    }

    /// The key columns.
    pub(crate) fn columns(&self) -> &[usize]
        ensures { result.now ≡ self.now.columns }
    {
        self.columns.as_slice()
    }

    /// All rows.
    pub(crate) fn lives(&self) -> &[Life]
        ensures lives { result.now ≡ self.now.lives }
        ensures are { AreLives self.now.columns self.now.lives self.now.next }
    {
        self.lives.as_slice()
    }

    /// A time before which no row ends.
    pub(crate) fn next(&self) -> Time
        ensures next { result ≡ self.now.next }
        ensures are { AreLives self.now.columns self.now.lives self.now.next }
    {
        self.next
    }

    /// Puts in a row, whose key has that word.
    pub(crate) fn add(&mut self, edge: Edge, word: u64) -> Result<(), Memory>
        requires lasts { edge.sync < edge.other }
        requires word { word ≡ word_of_cells (key_data self.old.columns edge.cells) }
        ensures lives { OnOk result ((v : Life → ℕ) → total v self.new.lives
            ≡ total v self.old.lives + v (record { edge = edge; word = word })) }
        ensures next { OnOk result (self.new.next ≡ min self.old.next edge.other) }
        ensures columns { self.new.columns ≡ self.old.columns }
    {
        let next = lesser(self.next, edge.other);
        self.lives.push(Life { edge, word })?;
        self.next = next;
        Ok(())
    }

    /// Takes out a row that ends at the time. There is mostly none.
    pub(crate) fn pop_end(&mut self, t: Time) -> Option<Life>
        ensures some { IfSome result (λ life. (v : Life → ℕ) →
            total v self.old.lives ≡ total v self.new.lives + v life) }
        ensures ends { IfSome result (λ life. ends_at t life ≡ true) }
        ensures fewer { IfSome result (λ life. length self.new.lives + 1 ≡ length self.old.lives) }
        ensures word { IfSome result (λ life. is_marked self.old.columns life ≡ true) }
        ensures lasts { IfSome result (λ life. lasts life ≡ true) }
        ensures none { IfNone result (self.new.lives ≡ self.old.lives) }
        ensures gone { IfNone result (failing (λ l. not (ends_at t l)) self.new.lives ≡ 0) }
        ensures columns { self.new.columns ≡ self.old.columns }
    {
        if t < self.next {
            return None;
        }
        let found = place_of(self.lives.as_slice(), t);
        let Some(i) = found else {
            self.next = least(self.lives.as_slice());
            return None;
        };
        let life = self.lives.swap_remove(i);
        self.next = least(self.lives.as_slice());
        Some(life)
    }

    /// Takes out some row, if there is one.
    pub(crate) fn pop(&mut self) -> Option<Life>
        ensures some { IfSome result (λ life. (v : Life → ℕ) →
            total v self.old.lives ≡ total v self.new.lives + v life) }
        ensures fewer { IfSome result (λ life. length self.new.lives + 1 ≡ length self.old.lives) }
        ensures none { IfNone result ((self.old.lives ≡ []) × (self.new.lives ≡ [])) }
        ensures columns { self.new.columns ≡ self.old.columns }
    {
        self.lives.pop()
    }
}
