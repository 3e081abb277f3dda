// The parser of streams, lets and whole queries.
ghost use Rattle.std.specs.Prelude.{◌≡◌, ◌≤◌, ◌<◌, ℕ, List, [], ◌∷◌, length, map, true, IfOk};
ghost use Rattle.query_text.specs.declared.word.Sign.TheVariants as S;
ghost use Rattle.query_text.specs.Token.{fixed, tokens_of};
ghost use Rattle.query_text.specs.Grammar.{col_then, query_then};
ghost use Rattle.query_text.specs.Spelling.{col_of, stream_of, let_of, query_of};
ghost use Rattle.query_text.specs.Reading.{Reads, Lacks, Any, ends_pipe, places_then};
ghost use Rattle.query_text.specs.Reading.{col_list_then, stream_rest_then, stream_list_then};
ghost use Rattle.query_text.specs.Reading.{let_rest_then, lets_list_then};
ghost use Rattle.query_text.specs.IsParse.{IsParse, fault_of};

use crate::cursor::Cursor;
use crate::expression::Parser;
use crate::query::{Let, LetList, Query};
use crate::stop::Stop;
use crate::tree::Nodes;
use crate::{Fault, Sign, first_fault, words};
use plan_model::{QueryError, QueryFault, StreamList};
use std::alloc::Global;
use tw_rows::{ColumnDef, Kind, Schema, StreamDef};

// How many bytes a query text may have.
const LARGEST: usize = 65_536;

impl<'a> Parser<'a> {
    // The number of places of a decimal, in its brackets.
    fn places(&mut self) -> Result<u8, Stop>
        ensures reads { Reads result places_then Any
            (λ p v. v ≡ p.number) self.old.cursor self.new.cursor }
        ensures fewer { IfOk result (λ _. length self.new.cursor ≤ length self.old.cursor) }
    {
        self.needs(Sign::Open)?;
        let number = self.number()?;
        if number > 18 {
            return Err(Stop::Stuck);
        }
        self.needs(Sign::Close)?;
        Ok(number as u8)
    }

    // A column of a stream.
    fn col(&mut self) -> Result<ColumnDef, Stop>
        ensures reads { Reads result col_then Any
            (λ c v. v ≡ col_of c) self.old.cursor self.new.cursor }
        ensures fewer { IfOk result (λ _. length self.new.cursor ≤ length self.old.cursor) }
    {
        let name = self.name()?;
        match self.cursor.takes_sign() {
            Some(Sign::IntKind) => Ok(ColumnDef {
                name,
                kind: Kind::Int,
            }),
            Some(Sign::BoolKind) => Ok(ColumnDef {
                name,
                kind: Kind::Bool,
            }),
            Some(Sign::TextKind) => Ok(ColumnDef {
                name,
                kind: Kind::Text,
            }),
            Some(Sign::DecKind) => {
                let places = self.places()?;
                let kind = Kind::Dec(places);
                Ok(ColumnDef { name, kind })
            }
            _ => Err(Stop::Stuck),
        }
    }

    // The columns of a stream.
    fn cols(&mut self) -> Result<Schema, Stop>
        ensures reads { Reads result col_list_then (Lacks (fixed S.Comma))
            (λ p v. v ≡ col_of p.0 ∷ map col_of p.1) self.old.cursor self.new.cursor }
        ensures fewer { IfOk result (λ _. length self.new.cursor ≤ length self.old.cursor) }
    {
        let mut items = Vec::new(self.alloc);
        let first = self.col()?;
        items.push(first)?;
        'more: while self.cursor.takes(Sign::Comma) {
            let next = self.col()?;
            items.push(next)?;
        }
        Ok(Schema::from_vec(items))
    }

    // A stream, behind its word.
    fn stream(&mut self) -> Result<StreamDef, Stop>
        ensures reads { Reads result stream_rest_then Any
            (λ s v. v ≡ stream_of s) self.old.cursor self.new.cursor }
        ensures fewer { IfOk result (λ _. length self.new.cursor ≤ length self.old.cursor) }
    {
        let name = self.name()?;
        self.needs(Sign::Open)?;
        let schema = self.cols()?;
        self.needs(Sign::Close)?;
        self.needs(Sign::Semicolon)?;
        Ok(StreamDef { name, schema })
    }

    // The streams of a query.
    fn streams(&mut self) -> Result<StreamList, Stop>
        ensures reads { Reads result stream_list_then (Lacks (fixed S.Stream))
            (λ p v. v ≡ stream_of p.0 ∷ map stream_of p.1) self.old.cursor self.new.cursor }
        ensures fewer { IfOk result (λ _. length self.new.cursor ≤ length self.old.cursor) }
    {
        self.needs(Sign::Stream)?;
        let mut items = Vec::new(self.alloc);
        let first = self.stream()?;
        items.push(first)?;
        'more: while self.cursor.takes(Sign::Stream) {
            let next = self.stream()?;
            items.push(next)?;
        }
        Ok(StreamList::from_vec(items))
    }

    // A let, behind its word.
    fn one_let(&mut self) -> Result<Let, Stop>
        ensures reads { Reads result let_rest_then Any
            (λ l v. v ≡ let_of l) self.old.cursor self.new.cursor }
        ensures fewer { IfOk result (λ _. length self.new.cursor ≤ length self.old.cursor) }
    {
        let name = self.name()?;
        self.needs(Sign::Equal)?;
        let pipe = self.pipe()?;
        self.needs(Sign::Semicolon)?;
        Ok(Let { name, pipe })
    }

    // The lets of a query.
    fn lets(&mut self) -> Result<LetList, Stop>
        ensures reads { Reads result lets_list_then (Lacks (fixed S.Let))
            (λ ls v. v ≡ map let_of ls) self.old.cursor self.new.cursor }
        ensures fewer { IfOk result (λ _. length self.new.cursor ≤ length self.old.cursor) }
    {
        let mut items = Vec::new(self.alloc);
        'more: while self.cursor.takes(Sign::Let) {
            let next = self.one_let()?;
            items.push(next)?;
        }
        Ok(LetList::from_vec(items))
    }

    // A query, up to the end of the text.
    fn query(&mut self) -> Result<Query, Stop>
        ensures { Reads result query_then (λ z. ends_pipe z ≡ true)
            (λ q v. v ≡ query_of q) self.old.cursor self.new.cursor }
    {
        let streams = self.streams()?;
        let lets = self.lets()?;
        let body = self.pipe()?;
        Ok(Query {
            streams,
            lets,
            body,
        })
    }
}

// The fault that the grammar found.
fn fault_of(fault: Fault) -> QueryFault
    ensures { result ≡ fault_of fault }
{
    match fault {
        Fault::Syntax { at } => QueryFault::Syntax { at },
        Fault::LongExpr { at } => QueryFault::LongExpr { at },
    }
}

/// The query that the text spells, or the first fault by which it spells none.
pub fn parse(alloc: Global, text: &str) -> Result<Query, QueryError>
    ensures { IsParse text.now result }
{
    if text.len() > LARGEST {
        return Err(QueryError::Fault(QueryFault::TooLarge));
    }
    let words = words(alloc, text)?;
    if let Some(fault) = first_fault(alloc, text, &words)? {
        return Err(QueryError::Fault(fault_of(fault)));
    }
    let mut parser = Parser {
        alloc,
        cursor: Cursor::new(alloc, text, &words),
        nodes: Nodes::new(alloc),
    };
    match parser.query() {
        Ok(query) => Ok(query),
        Err(Stop::Memory) => Err(QueryError::Memory),
        Err(Stop::Stuck) => unreachable!(),
    }
}
