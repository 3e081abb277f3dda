// The first fault of a query text.
ghost use Rattle.std.specs.Prelude.{◌≡◌, ◌<◌, ◌≤◌, length, map, IfOk, Some, None};
ghost use Rattle.query_text.specs.Words.{words_of};
ghost use Rattle.query_text.specs.Machine.{start};
ghost use Rattle.query_text.specs.Parsing.{place, spot_kind, run_after, first_long};
ghost use Rattle.query_text.specs.Answer.{offset_of, IsAnswer};

use crate::Spot;
use crate::kind::Kind;
use crate::stack::Stack;
use crate::symbol::Symbol;
use std::alloc::Global;
use tw_rows::Memory;

// How many words an expression may have.
const LONGEST: usize = 200;

/// Why a text spells no query. `at` is an offset in bytes.
#[derive(Clone, Copy, Debug, PartialEq, Eq)]
pub enum Fault {
    /// The first word with which no query begins stands at `at`, or the text ends there too early.
    Syntax { at: usize },
    /// The word at `at` is the 201st of one expression.
    LongExpr { at: usize },
}

// How many words come before the first that can't come; none where the words are a query's.
fn stop(alloc: Global, words: &[Spot]) -> Result<Option<usize>, Memory>
    ensures { IfOk result (λ r. r ≡ place start (map spot_kind words.now)) }
{
    let mut stack = Stack::new(alloc);
    stack.put(&[Symbol::Stream, Symbol::Streams, Symbol::Lets, Symbol::Pipe])?;
    let mut at = 0;
    'words: while at < words.len() {
        let can_come = stack.read(Kind::of(words[at].word))?;
        if !can_come {
            return Ok(Some(at));
        }
        at += 1;
    }
    if stack.ends() {
        return Ok(None);
    }
    Ok(Some(at))
}

// How many words of expressions stand together up to this one, `run` of them before it.
fn run_after(run: usize, kind: Kind) -> usize
    requires { run ≤ 200 }
    ensures { result ≡ run_after run kind }
{
    if kind.is_in_expressions() { run + 1 } else { 0 }
}

// The first word up to which more words of expressions stand together than an expression may have. Elsewhere than in
// an expression at most four stand together, so this is the first word past the limit of an expression.
fn long_at(words: &[Spot]) -> Option<usize>
    ensures { result ≡ first_long 0 (map spot_kind words.now) }
{
    let mut run = 0;
    let mut at = 0;
    'words: while at < words.len() {
        run = run_after(run, Kind::of(words[at].word));
        if run > LONGEST {
            return Some(at);
        }
        at += 1;
    }
    None
}

// The offset of a word, or `end` behind the last.
fn offset_of(words: &[Spot], index: usize, end: usize) -> usize
    ensures { result ≡ offset_of end words.now index }
{
    if index < words.len() {
        words[index].at
    } else {
        end
    }
}

// The first fault of a text whose expressions are short.
fn short_fault(alloc: Global, text: &str, words: &[Spot]) -> Result<Option<Fault>, Memory>
    requires words { words.now ≡ words_of text.now }
    requires short { first_long 0 (map spot_kind words.now) ≡ None }
    ensures { IfOk result (λ r. IsAnswer text.now r) }
{
    let Some(index) = stop(alloc, words)? else {
        return Ok(None);
    };
    let at = offset_of(words, index, text.len());
    Ok(Some(Fault::Syntax { at }))
}

// The first fault of a text with too long an expression, whose first word past the limit has this index.
fn long_fault(alloc: Global, text: &str, words: &[Spot], index: usize) -> Result<Fault, Memory>
    requires words { words.now ≡ words_of text.now }
    requires long { first_long 0 (map spot_kind words.now) ≡ Some index }
    requires within { index < length words.now }
    ensures { IfOk result (λ r. IsAnswer text.now (Some r)) }
{
    let stopped = stop(alloc, &words[..index + 1])?;
    if let Some(place) = stopped {
        if place <= index {
            let at = words[place].at;
            return Ok(Fault::Syntax { at });
        }
    }
    let at = words[index].at;
    Ok(Fault::LongExpr { at })
}

/// The fault of a text, whose words these are: where it stops being a prefix of a query, or where an expression
/// becomes too long, whichever comes first. None where the text spells a query; the limit on its length is left aside.
pub fn first_fault(alloc: Global, text: &str, words: &[Spot]) -> Result<Option<Fault>, Memory>
    requires { words.now ≡ words_of text.now }
    ensures { IfOk result (λ r. IsAnswer text.now r) }
{
    match long_at(words) {
        None => short_fault(alloc, text, words),
        Some(index) => Ok(Some(long_fault(alloc, text, words, index)?)),
    }
}
