// The words of a query that are left. Only what stands here looks at a word.
ghost use Rattle.std.specs.Prelude.{◌≡◌, ℕ, ◌<◌, ◌≤◌, length, IfOk, IfSome, IsUtf8};
ghost use Rattle.plan_model.specs.IsExpr.{IsOneLine, IsDivisor};
ghost use Rattle.query_text.specs.Words.{words_of};
ghost use Rattle.query_text.specs.Token.{name, int, str, fixed, tokens_of, unquoted};
ghost use Rattle.query_text.specs.Reading.{Takes, IsAhead, TakesValue, TakesPos, Any, IsSmall};
ghost use Rattle.query_text.specs.Reading.{IsSmallDec, dec_of, TakesCompare, TakesTerm, TakesLeaf};
ghost use Rattle.query_text.specs.IsTree.{IsTreeNode};

use crate::tree::TreeNode;
use crate::{Sign, Spot, Word};
use plan_model::{ArithOp, CompareOp};
use std::alloc::Global;
use std::marker::Model;
use std::str::from_utf8;
use tw_rows::{Label, Memory};

// The text without its outer quotes, with each quote in it once where it has two.
fn unquoted(alloc: Global, text: &str) -> Result<Label, Memory>
    requires { IsUtf8 (unquoted text.now) }
    ensures { IfOk result (λ label. label ≡ unquoted text.now) }
{
    let bytes = text.as_bytes();
    let mut found = Vec::new(alloc);
    let mut at = 0;
    'bytes: while at < bytes.len() {
        let b = bytes[at];
        found.push(b)?;
        at += if b == b'\'' { 2 } else { 1 };
    }
    let Ok(text) = from_utf8(&found) else {
        unreachable!();
    };
    Label::new(alloc, text)
}

/// The words of a text that are left to read. Contracts see their tokens.
#[derive(Drop)]
pub(crate) struct Cursor<'a> {
    alloc: Global,
    text: &'a str,
    words: &'a [Spot],
    at: usize,
}

impl<'a> Model for Cursor<'a> {
    ghost use Rattle.std.specs.Prelude.{◌≡◌, ◌≤◌, List, map, drop, length, IsUtf8};
    ghost use Rattle.query_text.specs.Words.{words_of};
    ghost use Rattle.query_text.specs.Token.{Token, token_of};

    ghost Value = { List Token };

    ghost view = { λ c. map (token_of c.text.now) (drop c.at c.words.now) };

    ghost invariant = { λ c. (c.at ≤ length c.words.now)
        × (c.words.now ≡ words_of c.text.now)
        × IsUtf8 c.text.now };
}

impl<'a> Cursor<'a> {
    /// All words of the text.
    pub(crate) fn new(alloc: Global, text: &'a str, words: &'a [Spot]) -> Cursor<'a>
        requires { words.now ≡ words_of text.now }
        ensures { result ≡ tokens_of text.now }
    {
        Cursor {
            alloc,
            text,
            words,
            at: 0,
        }
    }

    /// Whether the sign or reserved word stands first. If it does, it is taken.
    pub(crate) fn takes(&mut self, sign: Sign) -> bool
        ensures { Takes result (fixed sign) self.old self.new }
    {
        let Some(spot) = self.words.get(self.at) else {
            return false;
        };
        let Word::Fixed(found) = spot.word else {
            return false;
        };
        if found != sign {
            return false;
        }
        self.at += 1;
        true
    }

    /// The sign of a comparison that stands first, taken.
    pub(crate) fn takes_compare(&mut self) -> Option<CompareOp>
        ensures { TakesCompare result self.old self.new }
    {
        if self.takes(Sign::Equal) {
            return Some(CompareOp::Eq);
        }
        if self.takes(Sign::Differs) {
            return Some(CompareOp::Ne);
        }
        if self.takes(Sign::Less) {
            return Some(CompareOp::Lt);
        }
        if self.takes(Sign::LessEqual) {
            return Some(CompareOp::Le);
        }
        if self.takes(Sign::Greater) {
            return Some(CompareOp::Gt);
        }
        if self.takes(Sign::GreaterEqual) {
            return Some(CompareOp::Ge);
        }
        None
    }

    /// The `+` or `-` that stands first, taken.
    pub(crate) fn takes_term(&mut self) -> Option<ArithOp>
        ensures { TakesTerm result self.old self.new }
    {
        if self.takes(Sign::Plus) {
            return Some(ArithOp::Add);
        }
        if self.takes(Sign::Minus) {
            return Some(ArithOp::Sub);
        }
        None
    }

    /// The number that stands first, taken.
    pub(crate) fn takes_int(&mut self) -> Option<u64>
        ensures { TakesValue int IsSmall result self.old self.new }
    {
        let Some(spot) = self.words.get(self.at) else {
            return None;
        };
        let Word::Number(number) = spot.word else {
            return None;
        };
        self.at += 1;
        Some(number)
    }

    /// The decimal that stands first, taken: its units and its places.
    pub(crate) fn takes_dec(&mut self) -> Option<(u64, u8)>
        ensures { TakesValue dec_of IsSmallDec result self.old self.new }
    {
        let Some(spot) = self.words.get(self.at) else {
            return None;
        };
        let Word::Decimal { units, places } = spot.word else {
            return None;
        };
        self.at += 1;
        Some((units, places))
    }

    /// The number above 0 that stands first, taken.
    pub(crate) fn takes_pos(&mut self) -> Option<u64>
        ensures { TakesPos result self.old self.new }
    {
        let Some(spot) = self.words.get(self.at) else {
            return None;
        };
        let Word::Number(number) = spot.word else {
            return None;
        };
        if number == 0 {
            return None;
        }
        self.at += 1;
        Some(number)
    }

    /// The name that stands first, taken.
    pub(crate) fn takes_name(&mut self) -> Result<Option<Label>, Memory>
        ensures { IfOk result (λ found. TakesValue name Any found self.old self.new) }
    {
        let Some(spot) = self.words.get(self.at) else {
            return Ok(None);
        };
        let Word::Name(length) = spot.word else {
            return Ok(None);
        };
        let label = Label::new(self.alloc, &self.text[spot.at..spot.at + length])?;
        self.at += 1;
        Ok(Some(label))
    }

    /// The name that stands first. It is not taken.
    pub(crate) fn name_ahead(&self) -> Result<Option<Label>, Memory>
        ensures { IfOk result (λ found. IsAhead found self.now) }
    {
        let Some(spot) = self.words.get(self.at) else {
            return Ok(None);
        };
        let Word::Name(length) = spot.word else {
            return Ok(None);
        };
        let label = Label::new(self.alloc, &self.text[spot.at..spot.at + length])?;
        Ok(Some(label))
    }

    /// The sign or reserved word that stands first, taken.
    pub(crate) fn takes_sign(&mut self) -> Option<Sign>
        ensures { TakesValue fixed Any result self.old self.new }
    {
        let Some(spot) = self.words.get(self.at) else {
            return None;
        };
        let Word::Fixed(found) = spot.word else {
            return None;
        };
        self.at += 1;
        Some(found)
    }

    /// The text that stands first, taken: without its quotes, and each quote in it once.
    pub(crate) fn takes_text(&mut self) -> Result<Option<Label>, Memory>
        ensures { IfOk result (λ found. TakesValue str IsOneLine found self.old self.new) }
    {
        let Some(spot) = self.words.get(self.at) else {
            return Ok(None);
        };
        let Word::Quoted(length) = spot.word else {
            return Ok(None);
        };
        let label = unquoted(self.alloc, &self.text[spot.at + 1..spot.at + length - 1])?;
        self.at += 1;
        Ok(Some(label))
    }

    /// The atom of one word that stands first, taken, as the node that it leaves.
    pub(crate) fn takes_leaf(&mut self) -> Result<Option<TreeNode>, Memory>
        ensures takes { IfOk result (λ found. TakesLeaf found self.old self.new) }
        ensures fewer { IfOk result (λ _. length self.new ≤ length self.old) }
        ensures node { IfOk result (λ found. IfSome found (λ node. (i : ℕ) → IsTreeNode i node)) }
    {
        if let Some(name) = self.takes_name()? {
            return Ok(Some(TreeNode::Name(name)));
        }
        if let Some(text) = self.takes_text()? {
            return Ok(Some(TreeNode::Text(text)));
        }
        if let Some(number) = self.takes_int() {
            return Ok(Some(TreeNode::Int(number as i64)));
        }
        if let Some((units, places)) = self.takes_dec() {
            let units = units as i64;
            return Ok(Some(TreeNode::Dec { units, places }));
        }
        if self.takes(Sign::True) {
            return Ok(Some(TreeNode::Bool(true)));
        }
        if self.takes(Sign::False) {
            return Ok(Some(TreeNode::Bool(false)));
        }
        Ok(None)
    }
}
