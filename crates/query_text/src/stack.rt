// The symbols that are still to be read.
ghost use Rattle.std.specs.Prelude.{◌≡◌, List, [], ◌∷◌, ◌++◌, IfOk, IfNone, IfSome};
ghost use Rattle.query_text.specs.Machine.{after, all_may_end};
ghost use Rattle.query_text.specs.Parsing.{Reads, TookWord};

use crate::kind::Kind;
use crate::symbol::Symbol;
use std::alloc::Global;
use std::marker::Model;
use tw_rows::Memory;

/// What was done at a symbol: the word was taken, nothing was taken, or no query goes on so.
#[derive(Clone, Copy, Debug, PartialEq, Eq)]
pub(crate) enum Taken {
    Word,
    Nothing,
    Stop,
}

/// The symbols that are still to be read, the next one last.
#[derive(Drop)]
pub(crate) struct Stack {
    symbols: Vec<Symbol>,
}

impl Model for Stack {
    ghost use Rattle.std.specs.Prelude.{List, reverse};
    ghost use Rattle.query_text.specs.declared.symbol.Symbol.{Symbol};

    ghost Value = { List Symbol };

    ghost view = { λ s. reverse s.symbols.items };
}

impl Stack {
    pub(crate) fn new(alloc: Global) -> Self
        ensures { result ≡ [] }
    {
        Stack {
            symbols: Vec::new(alloc),
        }
    }

    /// Puts the symbols on the stack, the first of them on top.
    pub(crate) fn put(&mut self, symbols: &[Symbol]) -> Result<(), Memory>
        ensures { IfOk result (λ _. self.new ≡ symbols.now ++ self.old) }
    {
        let mut left = symbols.len();
        'symbols: while left > 0 {
            left -= 1;
            self.symbols.push(symbols[left])?;
        }
        Ok(())
    }

    /// The next symbol, taken.
    pub(crate) fn next(&mut self) -> Option<Symbol>
        ensures none { IfNone result ((self.old ≡ []) × (self.new ≡ [])) }
        ensures some { IfSome result (λ s. self.old ≡ s ∷ self.new) }
    {
        self.symbols.pop()
    }

    /// Takes the word, and puts the symbols on the stack.
    pub(crate) fn take(&mut self, symbols: &[Symbol]) -> Result<Taken, Memory>
        ensures { IfOk result (λ r. TookWord r self.new (symbols.now ++ self.old)) }
    {
        self.put(symbols)?;
        Ok(Taken::Word)
    }

    /// Takes the word, and puts these symbols on the stack, and those below them.
    pub(crate) fn take_before(
        &mut self,
        symbols: &[Symbol],
        below: &[Symbol],
    ) -> Result<Taken, Memory>
        ensures { IfOk result (λ r. TookWord r self.new (symbols.now ++ below.now ++ self.old)) }
    {
        self.put(below)?;
        self.take(symbols)
    }

    /// Reads one word, and says whether it could come.
    pub(crate) fn read(&mut self, kind: Kind) -> Result<bool, Memory>
        ensures { IfOk result (λ b. Reads b (after self.old kind) self.new) }
    {
        'symbols: while let Some(symbol) = self.next() {
            match self.choose(symbol, kind)? {
                Taken::Word => return Ok(true),
                Taken::Nothing => {}
                Taken::Stop => return Ok(false),
            }
        }
        Ok(false)
    }

    /// Whether nothing need be left to read.
    pub(crate) fn ends(&mut self) -> bool
        ensures { result ≡ all_may_end self.old }
    {
        'symbols: while let Some(symbol) = self.next() {
            if !symbol.may_end() {
                return false;
            }
        }
        true
    }
}
