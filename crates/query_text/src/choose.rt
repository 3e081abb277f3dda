// What each symbol takes: the first word of its rule, and then the symbols that the rest of the rule is read by.
ghost use Rattle.std.specs.Prelude.{◌≡◌, List, [], ◌∷◌, IfOk};
ghost use Rattle.query_text.specs.Machine.{before, choose, at_stream, at_streams, at_col};
ghost use Rattle.query_text.specs.Machine.{at_col_kind, at_cols, at_lets, at_pipe, at_steps};
ghost use Rattle.query_text.specs.Machine.{at_step, at_item, at_item_rest, at_items, at_agg};
ghost use Rattle.query_text.specs.Machine.{at_aggs, at_by, at_on, at_names, at_more_names};
ghost use Rattle.query_text.specs.Machine.{at_expr, at_ors, at_conj, at_ands, at_neg, at_test};
ghost use Rattle.query_text.specs.Machine.{at_sum, at_terms, at_prod, at_factors, at_unary};
ghost use Rattle.query_text.specs.Machine.{at_atom, at_named, at_int, at_pos, at_places};
ghost use Rattle.query_text.specs.Machine.{at_per, at_else, at_lits, at_lit, at_unsigned};
ghost use Rattle.query_text.specs.Machine.{at_word};
ghost use Rattle.query_text.specs.Grammar.{is_places};
ghost use Rattle.query_text.specs.Parsing.{Did};

use crate::Sign;
use crate::kind::Kind;
use crate::stack::{Stack, Taken};
use crate::symbol::Symbol;
use tw_rows::Memory;

// What may follow the first operand of `or` in a list of items, and the name of the item.
const AFTER_ORS: [Symbol; 2] = [Symbol::Word(Sign::As), Symbol::Named];

// Likewise of `and`.
const AFTER_ANDS: [Symbol; 3] = [Symbol::Ors, Symbol::Word(Sign::As), Symbol::Named];

// Likewise of a comparison.
const AFTER_TEST: [Symbol; 4] = [
    Symbol::Ands,
    Symbol::Ors,
    Symbol::Word(Sign::As),
    Symbol::Named,
];

// Likewise of a sum.
const AFTER_TERMS: [Symbol; 5] = [
    Symbol::Test,
    Symbol::Ands,
    Symbol::Ors,
    Symbol::Word(Sign::As),
    Symbol::Named,
];

// Likewise of a product.
const AFTER_FACTORS: [Symbol; 6] = [
    Symbol::Terms,
    Symbol::Test,
    Symbol::Ands,
    Symbol::Ors,
    Symbol::Word(Sign::As),
    Symbol::Named,
];

// Whether a decimal may have so many places.
fn is_places(n: u64) -> bool
    ensures { result ≡ is_places n }
{
    matches!(n, 1..=18)
}

impl Stack {
    #[tactic(auto, unfolding(crate::specs::Machine::at_atom))]
    fn atom(&mut self, kind: Kind) -> Result<Taken, Memory>
        ensures { IfOk result (λ r. Did (at_atom kind) r self.old self.new) }
    {
        match kind {
            Kind::Name | Kind::Number(_) | Kind::Decimal | Kind::Quoted => Ok(Taken::Word),
            Kind::Fixed(Sign::True) | Kind::Fixed(Sign::False) => Ok(Taken::Word),
            Kind::Fixed(Sign::Open) => self.take(&[Symbol::Expr, Symbol::Word(Sign::Close)]),
            _ => Ok(Taken::Stop),
        }
    }

    #[tactic(auto, unfolding(crate::specs::Machine::at_unary))]
    fn unary(&mut self, kind: Kind) -> Result<Taken, Memory>
        ensures { IfOk result (λ r. Did (at_unary kind) r self.old self.new) }
    {
        match kind {
            Kind::Fixed(Sign::Minus) => self.take(&[Symbol::Unary]),
            _ => self.atom(kind),
        }
    }

    fn prod(&mut self, kind: Kind) -> Result<Taken, Memory>
        ensures { IfOk result (λ r. Did (at_prod kind) r self.old self.new) }
    {
        self.put(&[Symbol::Factors])?;
        self.unary(kind)
    }

    fn sum(&mut self, kind: Kind) -> Result<Taken, Memory>
        ensures { IfOk result (λ r. Did (at_sum kind) r self.old self.new) }
    {
        self.put(&[Symbol::Terms])?;
        self.prod(kind)
    }

    // A comparison, or a sum alone.
    fn cmp(&mut self, kind: Kind) -> Result<Taken, Memory>
        ensures { IfOk result (λ r.
            Did (before (at_sum kind) (Symbol.Test ∷ [])) r self.old self.new) }
    {
        self.put(&[Symbol::Test])?;
        self.sum(kind)
    }

    #[tactic(auto, unfolding(crate::specs::Machine::at_neg))]
    fn neg(&mut self, kind: Kind) -> Result<Taken, Memory>
        ensures { IfOk result (λ r. Did (at_neg kind) r self.old self.new) }
    {
        match kind {
            Kind::Fixed(Sign::Not) => self.take(&[Symbol::Neg]),
            _ => self.cmp(kind),
        }
    }

    fn conj(&mut self, kind: Kind) -> Result<Taken, Memory>
        ensures { IfOk result (λ r. Did (at_conj kind) r self.old self.new) }
    {
        self.put(&[Symbol::Ands])?;
        self.neg(kind)
    }

    fn expr(&mut self, kind: Kind) -> Result<Taken, Memory>
        ensures { IfOk result (λ r. Did (at_expr kind) r self.old self.new) }
    {
        self.put(&[Symbol::Ors])?;
        self.conj(kind)
    }

    #[tactic(auto, unfolding(crate::specs::Machine::at_ors))]
    fn ors(&mut self, kind: Kind) -> Result<Taken, Memory>
        ensures { IfOk result (λ r. Did (at_ors kind) r self.old self.new) }
    {
        match kind {
            Kind::Fixed(Sign::Or) => self.take(&[Symbol::Conj, Symbol::Ors]),
            _ => Ok(Taken::Nothing),
        }
    }

    #[tactic(auto, unfolding(crate::specs::Machine::at_ands))]
    fn ands(&mut self, kind: Kind) -> Result<Taken, Memory>
        ensures { IfOk result (λ r. Did (at_ands kind) r self.old self.new) }
    {
        match kind {
            Kind::Fixed(Sign::And) => self.take(&[Symbol::Neg, Symbol::Ands]),
            _ => Ok(Taken::Nothing),
        }
    }

    #[tactic(auto, unfolding(crate::specs::Machine::at_test))]
    fn test(&mut self, kind: Kind) -> Result<Taken, Memory>
        ensures { IfOk result (λ r. Did (at_test kind) r self.old self.new) }
    {
        match kind {
            Kind::Fixed(Sign::Equal)
            | Kind::Fixed(Sign::Differs)
            | Kind::Fixed(Sign::Less)
            | Kind::Fixed(Sign::LessEqual)
            | Kind::Fixed(Sign::Greater)
            | Kind::Fixed(Sign::GreaterEqual) => self.take(&[Symbol::Sum]),
            _ => Ok(Taken::Nothing),
        }
    }

    #[tactic(auto, unfolding(crate::specs::Machine::at_terms))]
    fn terms(&mut self, kind: Kind) -> Result<Taken, Memory>
        ensures { IfOk result (λ r. Did (at_terms kind) r self.old self.new) }
    {
        match kind {
            Kind::Fixed(Sign::Plus) | Kind::Fixed(Sign::Minus) => self.take(&[
                Symbol::Prod,
                Symbol::Terms,
            ]),
            _ => Ok(Taken::Nothing),
        }
    }

    #[tactic(auto, unfolding(crate::specs::Machine::at_factors))]
    fn factors(&mut self, kind: Kind) -> Result<Taken, Memory>
        ensures { IfOk result (λ r. Did (at_factors kind) r self.old self.new) }
    {
        match kind {
            Kind::Fixed(Sign::Star) => self.take(&[Symbol::Unary, Symbol::Factors]),
            Kind::Fixed(Sign::Div) | Kind::Fixed(Sign::Mod) => self.take(&[
                Symbol::Pos,
                Symbol::Factors,
            ]),
            _ => Ok(Taken::Nothing),
        }
    }

    #[tactic(auto, unfolding(crate::specs::Machine::at_named))]
    fn named(&mut self, kind: Kind) -> Result<Taken, Memory>
        ensures { IfOk result (λ r. Did (at_named kind) r self.old self.new) }
    {
        match kind {
            Kind::Name => Ok(Taken::Word),
            _ => Ok(Taken::Stop),
        }
    }

    #[tactic(auto, unfolding(crate::specs::Machine::at_int))]
    fn int(&mut self, kind: Kind) -> Result<Taken, Memory>
        ensures { IfOk result (λ r. Did (at_int kind) r self.old self.new) }
    {
        match kind {
            Kind::Number(_) => Ok(Taken::Word),
            _ => Ok(Taken::Stop),
        }
    }

    #[tactic(auto, unfolding(crate::specs::Machine::at_pos))]
    fn pos(&mut self, kind: Kind) -> Result<Taken, Memory>
        ensures { IfOk result (λ r. Did (at_pos kind) r self.old self.new) }
    {
        match kind {
            Kind::Number(0) => Ok(Taken::Stop),
            Kind::Number(_) => Ok(Taken::Word),
            _ => Ok(Taken::Stop),
        }
    }

    #[tactic(auto, unfolding(crate::specs::Machine::at_places))]
    fn places(&mut self, kind: Kind) -> Result<Taken, Memory>
        ensures { IfOk result (λ r. Did (at_places kind) r self.old self.new) }
    {
        match kind {
            Kind::Number(n) if is_places(n) => Ok(Taken::Word),
            _ => Ok(Taken::Stop),
        }
    }

    // Just this word.
    #[tactic(auto, unfolding(crate::specs::Machine::at_word))]
    fn word(&mut self, word: Sign, kind: Kind) -> Result<Taken, Memory>
        ensures { IfOk result (λ r. Did (at_word word kind) r self.old self.new) }
    {
        match kind {
            Kind::Fixed(found) if found == word => Ok(Taken::Word),
            _ => Ok(Taken::Stop),
        }
    }

    #[tactic(auto, unfolding(crate::specs::Machine::at_names))]
    fn names(&mut self, kind: Kind) -> Result<Taken, Memory>
        ensures { IfOk result (λ r. Did (at_names kind) r self.old self.new) }
    {
        match kind {
            Kind::Name => self.take(&[Symbol::MoreNames]),
            _ => Ok(Taken::Stop),
        }
    }

    #[tactic(auto, unfolding(crate::specs::Machine::at_more_names))]
    fn more_names(&mut self, kind: Kind) -> Result<Taken, Memory>
        ensures { IfOk result (λ r. Did (at_more_names kind) r self.old self.new) }
    {
        match kind {
            Kind::Fixed(Sign::Comma) => self.take(&[Symbol::Named, Symbol::MoreNames]),
            _ => Ok(Taken::Nothing),
        }
    }

    #[tactic(auto, unfolding(crate::specs::Machine::at_by))]
    fn by(&mut self, kind: Kind) -> Result<Taken, Memory>
        ensures { IfOk result (λ r. Did (at_by kind) r self.old self.new) }
    {
        match kind {
            Kind::Fixed(Sign::By) => self.take(&[Symbol::Names]),
            _ => Ok(Taken::Nothing),
        }
    }

    #[tactic(auto, unfolding(crate::specs::Machine::at_on))]
    fn on(&mut self, kind: Kind) -> Result<Taken, Memory>
        ensures { IfOk result (λ r. Did (at_on kind) r self.old self.new) }
    {
        match kind {
            Kind::Fixed(Sign::On) => self.take(&[Symbol::Names]),
            _ => Ok(Taken::Nothing),
        }
    }

    #[tactic(auto, unfolding(crate::specs::Machine::at_per))]
    fn per(&mut self, kind: Kind) -> Result<Taken, Memory>
        ensures { IfOk result (λ r. Did (at_per kind) r self.old self.new) }
    {
        match kind {
            Kind::Fixed(Sign::Per) => self.take(&[Symbol::Names]),
            _ => Ok(Taken::Nothing),
        }
    }

    #[tactic(auto, unfolding(crate::specs::Machine::at_unsigned))]
    fn unsigned(&mut self, kind: Kind) -> Result<Taken, Memory>
        ensures { IfOk result (λ r. Did (at_unsigned kind) r self.old self.new) }
    {
        match kind {
            Kind::Number(_) | Kind::Decimal => Ok(Taken::Word),
            _ => Ok(Taken::Stop),
        }
    }

    #[tactic(auto, unfolding(crate::specs::Machine::at_lit))]
    fn lit(&mut self, kind: Kind) -> Result<Taken, Memory>
        ensures { IfOk result (λ r. Did (at_lit kind) r self.old self.new) }
    {
        match kind {
            Kind::Fixed(Sign::Minus) => self.take(&[Symbol::Unsigned]),
            Kind::Number(_) | Kind::Decimal | Kind::Quoted => Ok(Taken::Word),
            Kind::Fixed(Sign::True) | Kind::Fixed(Sign::False) => Ok(Taken::Word),
            _ => Ok(Taken::Stop),
        }
    }

    #[tactic(auto, unfolding(crate::specs::Machine::at_lits))]
    fn lits(&mut self, kind: Kind) -> Result<Taken, Memory>
        ensures { IfOk result (λ r. Did (at_lits kind) r self.old self.new) }
    {
        match kind {
            Kind::Fixed(Sign::Comma) => self.take(&[Symbol::Lit, Symbol::Lits]),
            _ => Ok(Taken::Nothing),
        }
    }

    #[tactic(auto, unfolding(crate::specs::Machine::at_else))]
    fn else_part(&mut self, kind: Kind) -> Result<Taken, Memory>
        ensures { IfOk result (λ r. Did (at_else kind) r self.old self.new) }
    {
        match kind {
            Kind::Fixed(Sign::Else) => self.take(&[Symbol::Lit, Symbol::Lits]),
            _ => Ok(Taken::Nothing),
        }
    }

    #[tactic(auto, unfolding(crate::specs::Machine::at_agg))]
    fn agg(&mut self, kind: Kind) -> Result<Taken, Memory>
        ensures { IfOk result (λ r. Did (at_agg kind) r self.old self.new) }
    {
        match kind {
            Kind::Fixed(Sign::Count) => self.take(&[Symbol::Word(Sign::As), Symbol::Named]),
            Kind::Fixed(Sign::Sum)
            | Kind::Fixed(Sign::Min)
            | Kind::Fixed(Sign::Max)
            | Kind::Fixed(Sign::Avg) => self.take(&[
                Symbol::Named,
                Symbol::Word(Sign::As),
                Symbol::Named,
            ]),
            _ => Ok(Taken::Stop),
        }
    }

    #[tactic(auto, unfolding(crate::specs::Machine::at_aggs))]
    fn aggs(&mut self, kind: Kind) -> Result<Taken, Memory>
        ensures { IfOk result (λ r. Did (at_aggs kind) r self.old self.new) }
    {
        match kind {
            Kind::Fixed(Sign::Comma) => self.take(&[Symbol::Agg, Symbol::Aggs]),
            _ => Ok(Taken::Nothing),
        }
    }

    // What goes on with an expression after a name, or the end of an item that is the name alone.
    #[tactic(auto, unfolding(crate::specs::Machine::at_item_rest, crate::specs::Machine::at_factors, crate::specs::Machine::at_terms, crate::specs::Machine::at_test, crate::specs::Machine::at_ands, crate::specs::Machine::at_ors, crate::specs::Machine::at_word))]
    fn item_rest(&mut self, kind: Kind) -> Result<Taken, Memory>
        ensures { IfOk result (λ r. Did (at_item_rest kind) r self.old self.new) }
    {
        match kind {
            Kind::Fixed(Sign::Star) => self.take_before(
                &[Symbol::Unary, Symbol::Factors],
                &AFTER_FACTORS,
            ),
            Kind::Fixed(Sign::Div) | Kind::Fixed(Sign::Mod) => self.take_before(
                &[Symbol::Pos, Symbol::Factors],
                &AFTER_FACTORS,
            ),
            Kind::Fixed(Sign::Plus) | Kind::Fixed(Sign::Minus) => self.take_before(
                &[Symbol::Prod, Symbol::Terms],
                &AFTER_TERMS,
            ),
            Kind::Fixed(Sign::Equal)
            | Kind::Fixed(Sign::Differs)
            | Kind::Fixed(Sign::Less)
            | Kind::Fixed(Sign::LessEqual)
            | Kind::Fixed(Sign::Greater)
            | Kind::Fixed(Sign::GreaterEqual) => self.take_before(&[Symbol::Sum], &AFTER_TEST),
            Kind::Fixed(Sign::And) => self.take_before(&[Symbol::Neg, Symbol::Ands], &AFTER_ANDS),
            Kind::Fixed(Sign::Or) => self.take_before(&[Symbol::Conj, Symbol::Ors], &AFTER_ORS),
            Kind::Fixed(Sign::As) => self.take(&[Symbol::Named]),
            _ => Ok(Taken::Nothing),
        }
    }

    // An expression and its name.
    fn named_item(&mut self, kind: Kind) -> Result<Taken, Memory>
        ensures { IfOk result (λ r. Did
            (before (at_expr kind) (Symbol.Word Sign.As ∷ Symbol.Named ∷ [])) r self.old self.new) }
    {
        self.put(&[Symbol::Word(Sign::As), Symbol::Named])?;
        self.expr(kind)
    }

    #[tactic(auto, unfolding(crate::specs::Machine::at_item))]
    fn item(&mut self, kind: Kind) -> Result<Taken, Memory>
        ensures { IfOk result (λ r. Did (at_item kind) r self.old self.new) }
    {
        match kind {
            Kind::Name => self.take(&[Symbol::ItemRest]),
            _ => self.named_item(kind),
        }
    }

    #[tactic(auto, unfolding(crate::specs::Machine::at_items))]
    fn items(&mut self, kind: Kind) -> Result<Taken, Memory>
        ensures { IfOk result (λ r. Did (at_items kind) r self.old self.new) }
    {
        match kind {
            Kind::Fixed(Sign::Comma) => self.take(&[Symbol::Item, Symbol::Items]),
            _ => Ok(Taken::Nothing),
        }
    }

    #[tactic(auto, unfolding(crate::specs::Machine::at_step))]
    fn step(&mut self, kind: Kind) -> Result<Taken, Memory>
        ensures { IfOk result (λ r. Did (at_step kind) r self.old self.new) }
    {
        match kind {
            Kind::Fixed(Sign::Where) => self.take(&[Symbol::Expr]),
            Kind::Fixed(Sign::Select) => self.take(&[Symbol::Item, Symbol::Items]),
            Kind::Fixed(Sign::Union) => self.take(&[Symbol::Named]),
            Kind::Fixed(Sign::Delay)
            | Kind::Fixed(Sign::Duration)
            | Kind::Fixed(Sign::Extend)
            | Kind::Fixed(Sign::Tumble) => self.take(&[Symbol::Int]),
            Kind::Fixed(Sign::Hop) => self.take(&[Symbol::Int, Symbol::Int]),
            Kind::Fixed(Sign::Session) => self.take(&[Symbol::Int, Symbol::By]),
            Kind::Fixed(Sign::Clip) | Kind::Fixed(Sign::Join) | Kind::Fixed(Sign::Anti) =>
                self.take(&[Symbol::Named, Symbol::On]),
            Kind::Fixed(Sign::Group) => self.take(&[
                Symbol::By,
                Symbol::Word(Sign::Colon),
                Symbol::Agg,
                Symbol::Aggs,
            ]),
            Kind::Fixed(Sign::Coalesce) => Ok(Taken::Word),
            Kind::Fixed(Sign::Left) => self.take(&[Symbol::Named, Symbol::On, Symbol::Else]),
            Kind::Fixed(Sign::Top) => self.take(&[
                Symbol::Pos,
                Symbol::Per,
                Symbol::Word(Sign::By),
                Symbol::Named,
            ]),
            Kind::Fixed(Sign::Follow) => self.take(&[
                Symbol::Named,
                Symbol::On,
                Symbol::Word(Sign::Within),
                Symbol::Pos,
            ]),
            _ => Ok(Taken::Stop),
        }
    }

    #[tactic(auto, unfolding(crate::specs::Machine::at_steps))]
    fn steps(&mut self, kind: Kind) -> Result<Taken, Memory>
        ensures { IfOk result (λ r. Did (at_steps kind) r self.old self.new) }
    {
        match kind {
            Kind::Fixed(Sign::Bar) => self.take(&[Symbol::Step, Symbol::Steps]),
            _ => Ok(Taken::Nothing),
        }
    }

    #[tactic(auto, unfolding(crate::specs::Machine::at_pipe))]
    fn pipe(&mut self, kind: Kind) -> Result<Taken, Memory>
        ensures { IfOk result (λ r. Did (at_pipe kind) r self.old self.new) }
    {
        match kind {
            Kind::Name => self.take(&[Symbol::Steps]),
            _ => Ok(Taken::Stop),
        }
    }

    #[tactic(auto, unfolding(crate::specs::Machine::at_lets))]
    fn lets(&mut self, kind: Kind) -> Result<Taken, Memory>
        ensures { IfOk result (λ r. Did (at_lets kind) r self.old self.new) }
    {
        match kind {
            Kind::Fixed(Sign::Let) => self.take(&[
                Symbol::Named,
                Symbol::Word(Sign::Equal),
                Symbol::Pipe,
                Symbol::Word(Sign::Semicolon),
                Symbol::Lets,
            ]),
            _ => Ok(Taken::Nothing),
        }
    }

    #[tactic(auto, unfolding(crate::specs::Machine::at_col))]
    fn col(&mut self, kind: Kind) -> Result<Taken, Memory>
        ensures { IfOk result (λ r. Did (at_col kind) r self.old self.new) }
    {
        match kind {
            Kind::Name => self.take(&[Symbol::ColKind]),
            _ => Ok(Taken::Stop),
        }
    }

    #[tactic(auto, unfolding(crate::specs::Machine::at_col_kind))]
    fn col_kind(&mut self, kind: Kind) -> Result<Taken, Memory>
        ensures { IfOk result (λ r. Did (at_col_kind kind) r self.old self.new) }
    {
        match kind {
            Kind::Fixed(Sign::IntKind)
            | Kind::Fixed(Sign::BoolKind)
            | Kind::Fixed(Sign::TextKind) => Ok(Taken::Word),
            Kind::Fixed(Sign::DecKind) => self.take(&[
                Symbol::Word(Sign::Open),
                Symbol::Places,
                Symbol::Word(Sign::Close),
            ]),
            _ => Ok(Taken::Stop),
        }
    }

    #[tactic(auto, unfolding(crate::specs::Machine::at_cols))]
    fn cols(&mut self, kind: Kind) -> Result<Taken, Memory>
        ensures { IfOk result (λ r. Did (at_cols kind) r self.old self.new) }
    {
        match kind {
            Kind::Fixed(Sign::Comma) => self.take(&[Symbol::Col, Symbol::Cols]),
            _ => Ok(Taken::Nothing),
        }
    }

    #[tactic(auto, unfolding(crate::specs::Machine::at_stream))]
    fn stream(&mut self, kind: Kind) -> Result<Taken, Memory>
        ensures { IfOk result (λ r. Did (at_stream kind) r self.old self.new) }
    {
        match kind {
            Kind::Fixed(Sign::Stream) => self.take(&[
                Symbol::Named,
                Symbol::Word(Sign::Open),
                Symbol::Col,
                Symbol::Cols,
                Symbol::Word(Sign::Close),
                Symbol::Word(Sign::Semicolon),
            ]),
            _ => Ok(Taken::Stop),
        }
    }

    #[tactic(auto, unfolding(crate::specs::Machine::at_streams))]
    fn streams(&mut self, kind: Kind) -> Result<Taken, Memory>
        ensures { IfOk result (λ r. Did (at_streams kind) r self.old self.new) }
    {
        match kind {
            Kind::Fixed(Sign::Stream) => self.take(&[
                Symbol::Named,
                Symbol::Word(Sign::Open),
                Symbol::Col,
                Symbol::Cols,
                Symbol::Word(Sign::Close),
                Symbol::Word(Sign::Semicolon),
                Symbol::Streams,
            ]),
            _ => Ok(Taken::Nothing),
        }
    }

    /// What is done at this symbol, which was on top.
    pub(crate) fn choose(&mut self, symbol: Symbol, kind: Kind) -> Result<Taken, Memory>
        ensures { IfOk result (λ r. Did (choose symbol kind) r self.old self.new) }
    {
        match symbol {
            Symbol::Stream => self.stream(kind),
            Symbol::Streams => self.streams(kind),
            Symbol::Col => self.col(kind),
            Symbol::ColKind => self.col_kind(kind),
            Symbol::Cols => self.cols(kind),
            Symbol::Lets => self.lets(kind),
            Symbol::Pipe => self.pipe(kind),
            Symbol::Steps => self.steps(kind),
            Symbol::Step => self.step(kind),
            Symbol::Item => self.item(kind),
            Symbol::ItemRest => self.item_rest(kind),
            Symbol::Items => self.items(kind),
            Symbol::Agg => self.agg(kind),
            Symbol::Aggs => self.aggs(kind),
            Symbol::By => self.by(kind),
            Symbol::On => self.on(kind),
            Symbol::Names => self.names(kind),
            Symbol::MoreNames => self.more_names(kind),
            Symbol::Expr => self.expr(kind),
            Symbol::Ors => self.ors(kind),
            Symbol::Conj => self.conj(kind),
            Symbol::Ands => self.ands(kind),
            Symbol::Neg => self.neg(kind),
            Symbol::Test => self.test(kind),
            Symbol::Sum => self.sum(kind),
            Symbol::Terms => self.terms(kind),
            Symbol::Prod => self.prod(kind),
            Symbol::Factors => self.factors(kind),
            Symbol::Unary => self.unary(kind),
            Symbol::Atom => self.atom(kind),
            Symbol::Named => self.named(kind),
            Symbol::Int => self.int(kind),
            Symbol::Pos => self.pos(kind),
            Symbol::Places => self.places(kind),
            Symbol::Per => self.per(kind),
            Symbol::Else => self.else_part(kind),
            Symbol::Lits => self.lits(kind),
            Symbol::Lit => self.lit(kind),
            Symbol::Unsigned => self.unsigned(kind),
            Symbol::Word(word) => self.word(word, kind),
        }
    }
}
