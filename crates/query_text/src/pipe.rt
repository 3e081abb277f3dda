// The parser of names, items, aggregates, steps and pipes.
ghost use Rattle.std.specs.Prelude.{◌≡◌, ◌≤◌, ℕ, suc, List, [], ◌∷◌, length, map, ◌<◌, true, Some, None, IfOk};
ghost use Rattle.query_text.specs.declared.word.Sign.TheVariants as S;
ghost use Rattle.query_text.specs.Grammar.{expr_then, unary_then, names_then, by_then, on_then};
ghost use Rattle.query_text.specs.Grammar.{per_then, else_then, item_then, agg_then, step_then};
ghost use Rattle.query_text.specs.Grammar.{pipe_then};
ghost use Rattle.query_text.specs.Machine.{rank};
ghost use Rattle.query_text.specs.declared.query.AggFun.TheVariants as F;
ghost use Rattle.query_text.specs.declared.query.QueryStep.TheVariants as T;
ghost use Rattle.query_text.specs.Spelling.{tree_of, unary_onto, names_of, by_of, on_of, per_of, lit_of, fills_of, item_of, agg_of, step_of, pipe_of};
ghost use Rattle.query_text.specs.Reading.{Reads, Lacks, Any, ends_pipe, ends_step, ends_item};
ghost use Rattle.query_text.specs.Reading.{sign_then, name_then, int_then, as_then, computed_then};
ghost use Rattle.query_text.specs.Reading.{hop_then, session_then, operand_then, group_then};
ghost use Rattle.query_text.specs.Reading.{pos_then, left_then, top_then, follow_then};
ghost use Rattle.query_text.specs.Reading.{lit_list_then, select_then, agg_list_then};
ghost use Rattle.query_text.specs.Token.{fixed};

use crate::Sign;
use crate::expression::Parser;
use crate::query::{
    AggFun, AggList, Item, ItemList, NameList, Pipe, QueryAgg, QueryStep, StepList, TreeList,
};
use crate::stop::Stop;
use crate::tree::{Nodes, Tree};
use std::mem::replace;
use tw_rows::Label;

impl<'a> Parser<'a> {
    /// A sign or a reserved word, and no other word.
    pub(crate) fn needs(&mut self, sign: Sign) -> Result<(), Stop>
        ensures reads { Reads result (sign_then sign) Any
            (λ _ _. Unit {0}) self.old.cursor self.new.cursor }
        ensures fewer { IfOk result (λ _. length self.new.cursor ≤ length self.old.cursor) }
    {
        if self.cursor.takes(sign) {
            Ok(())
        } else {
            Err(Stop::Stuck)
        }
    }

    /// A name, and no other word.
    pub(crate) fn name(&mut self) -> Result<Label, Stop>
        ensures reads { Reads result name_then Any (λ n v. v ≡ n) self.old.cursor self.new.cursor }
        ensures fewer { IfOk result (λ _. length self.new.cursor ≤ length self.old.cursor) }
    {
        match self.cursor.takes_name()? {
            Some(name) => Ok(name),
            None => Err(Stop::Stuck),
        }
    }

    /// A number, and no other word.
    pub(crate) fn number(&mut self) -> Result<u64, Stop>
        ensures reads { Reads result int_then Any (λ n v. v ≡ n) self.old.cursor self.new.cursor }
        ensures fewer { IfOk result (λ _. length self.new.cursor ≤ length self.old.cursor) }
    {
        match self.cursor.takes_int() {
            Some(number) => Ok(number),
            None => Err(Stop::Stuck),
        }
    }

    // A number above 0, and no other word.
    fn positive(&mut self) -> Result<u64, Stop>
        ensures reads { Reads result pos_then Any
            (λ n v. v ≡ suc n) self.old.cursor self.new.cursor }
        ensures fewer { IfOk result (λ _. length self.new.cursor ≤ length self.old.cursor) }
    {
        match self.cursor.takes_pos() {
            Some(number) => Ok(number),
            None => Err(Stop::Stuck),
        }
    }

    // Names with commas between them.
    fn names(&mut self) -> Result<NameList, Stop>
        ensures reads { Reads result names_then (Lacks (fixed S.Comma))
            (λ ns v. v ≡ names_of ns) self.old.cursor self.new.cursor }
        ensures fewer { IfOk result (λ _. length self.new.cursor ≤ length self.old.cursor) }
    {
        let mut items = Vec::new(self.alloc);
        let first = self.name()?;
        items.push(first)?;
        'more: while self.cursor.takes(Sign::Comma) {
            let next = self.name()?;
            items.push(next)?;
        }
        Ok(NameList::from_vec(items))
    }

    // The key behind `by`, or none.
    fn by(&mut self) -> Result<NameList, Stop>
        ensures reads { Reads result by_then (λ z. Lacks (fixed S.By) z × Lacks (fixed S.Comma) z)
            (λ b v. v ≡ by_of b) self.old.cursor self.new.cursor }
        ensures fewer { IfOk result (λ _. length self.new.cursor ≤ length self.old.cursor) }
    {
        if self.cursor.takes(Sign::By) {
            self.names()
        } else {
            Ok(NameList::from_vec(Vec::new(self.alloc)))
        }
    }

    // The key behind `on`, or none.
    fn on(&mut self) -> Result<NameList, Stop>
        ensures reads { Reads result on_then (λ z. Lacks (fixed S.On) z × Lacks (fixed S.Comma) z)
            (λ o v. v ≡ on_of o) self.old.cursor self.new.cursor }
        ensures fewer { IfOk result (λ _. length self.new.cursor ≤ length self.old.cursor) }
    {
        if self.cursor.takes(Sign::On) {
            self.names()
        } else {
            Ok(NameList::from_vec(Vec::new(self.alloc)))
        }
    }

    // The key behind `per`, or none.
    fn per(&mut self) -> Result<NameList, Stop>
        ensures reads { Reads result per_then (λ z. Lacks (fixed S.Per) z × Lacks (fixed S.Comma) z)
            (λ p v. v ≡ per_of p) self.old.cursor self.new.cursor }
        ensures fewer { IfOk result (λ _. length self.new.cursor ≤ length self.old.cursor) }
    {
        if self.cursor.takes(Sign::Per) {
            self.names()
        } else {
            Ok(NameList::from_vec(Vec::new(self.alloc)))
        }
    }

    // The name behind `as`.
    fn named(&mut self) -> Result<Label, Stop>
        ensures reads { Reads result as_then Any (λ n v. v ≡ n) self.old.cursor self.new.cursor }
        ensures fewer { IfOk result (λ _. length self.new.cursor ≤ length self.old.cursor) }
    {
        self.needs(Sign::As)?;
        self.name()
    }

    // An expression, as a tree.
    fn tree(&mut self) -> Result<Tree, Stop>
        ensures reads { Reads result expr_then (λ z. rank z < 1)
            (λ e v. v ≡ tree_of e) self.old.cursor self.new.cursor }
        ensures fewer { IfOk result (λ _. length self.new.cursor ≤ length self.old.cursor) }
    {
        self.nodes = Nodes::new(self.alloc);
        self.expr()?;
        let nodes = replace(&mut self.nodes, Nodes::new(self.alloc));
        Ok(nodes.into_tree())
    }

    // An item of a select: an expression with its name, or a name alone, which is itself the expression.
    fn item(&mut self) -> Result<Item, Stop>
        ensures reads { Reads result item_then (λ z. ends_item z ≡ true)
            (λ i v. v ≡ item_of i) self.old.cursor self.new.cursor }
        ensures fewer { IfOk result (λ _. length self.new.cursor ≤ length self.old.cursor) }
    {
        let ahead = self.cursor.name_ahead()?;
        let tree = self.tree()?;
        if self.cursor.takes(Sign::As) {
            let name = self.name()?;
            return Ok(Item { name, tree });
        }
        match ahead {
            Some(name) => Ok(Item { name, tree }),
            None => Err(Stop::Stuck),
        }
    }

    // The items of a select.
    fn items(&mut self) -> Result<ItemList, Stop>
        ensures reads { Reads result select_then (λ z. ends_step z ≡ true)
            (λ p v. v ≡ item_of p.0 ∷ map item_of p.1) self.old.cursor self.new.cursor }
        ensures fewer { IfOk result (λ _. length self.new.cursor ≤ length self.old.cursor) }
    {
        let mut items = Vec::new(self.alloc);
        let first = self.item()?;
        items.push(first)?;
        'more: while self.cursor.takes(Sign::Comma) {
            let next = self.item()?;
            items.push(next)?;
        }
        Ok(ItemList::from_vec(items))
    }

    // An aggregate of a column, behind the word of what it does.
    fn computed(&mut self, fun: AggFun) -> Result<QueryAgg, Stop>
        ensures reads { Reads result computed_then Any
            (λ p v. v ≡ record { fun = fun; column = Some p.0; name = p.1 }) self.old.cursor
            self.new.cursor }
        ensures fewer { IfOk result (λ _. length self.new.cursor ≤ length self.old.cursor) }
    {
        let column = self.name()?;
        let name = self.named()?;
        let column = Some(column);
        Ok(QueryAgg { fun, column, name })
    }

    // A count, behind its word.
    fn counted(&mut self) -> Result<QueryAgg, Stop>
        ensures reads { Reads result as_then Any
            (λ n v. v ≡ record { fun = F.Count; column = None; name = n }) self.old.cursor
            self.new.cursor }
        ensures fewer { IfOk result (λ _. length self.new.cursor ≤ length self.old.cursor) }
    {
        let name = self.named()?;
        Ok(QueryAgg {
            fun: AggFun::Count,
            column: None,
            name,
        })
    }

    // An aggregate of a group, with its name.
    fn agg(&mut self) -> Result<QueryAgg, Stop>
        ensures reads { Reads result agg_then Any
            (λ a v. v ≡ agg_of a) self.old.cursor self.new.cursor }
        ensures fewer { IfOk result (λ _. length self.new.cursor ≤ length self.old.cursor) }
    {
        match self.cursor.takes_sign() {
            Some(Sign::Count) => self.counted(),
            Some(Sign::Sum) => self.computed(AggFun::Sum),
            Some(Sign::Min) => self.computed(AggFun::Min),
            Some(Sign::Max) => self.computed(AggFun::Max),
            Some(Sign::Avg) => self.computed(AggFun::Avg),
            _ => Err(Stop::Stuck),
        }
    }

    // The aggregates of a group.
    fn aggs(&mut self) -> Result<AggList, Stop>
        ensures reads { Reads result agg_list_then (Lacks (fixed S.Comma))
            (λ p v. v ≡ agg_of p.0 ∷ map agg_of p.1) self.old.cursor self.new.cursor }
        ensures fewer { IfOk result (λ _. length self.new.cursor ≤ length self.old.cursor) }
    {
        let mut items = Vec::new(self.alloc);
        let first = self.agg()?;
        items.push(first)?;
        'more: while self.cursor.takes(Sign::Comma) {
            let next = self.agg()?;
            items.push(next)?;
        }
        Ok(AggList::from_vec(items))
    }

    // A hop, behind its word.
    fn hop(&mut self) -> Result<QueryStep, Stop>
        ensures reads { Reads result hop_then Any
            (λ p v. v ≡ T.Hop p.0 p.1) self.old.cursor self.new.cursor }
        ensures fewer { IfOk result (λ _. length self.new.cursor ≤ length self.old.cursor) }
    {
        let size = self.number()?;
        let period = self.number()?;
        Ok(QueryStep::Hop { size, period })
    }

    // A session, behind its word.
    fn session(&mut self) -> Result<QueryStep, Stop>
        ensures reads { Reads result session_then (λ z. ends_step z ≡ true)
            (λ p v. v ≡ T.Session p.0 (by_of p.1)) self.old.cursor self.new.cursor }
        ensures fewer { IfOk result (λ _. length self.new.cursor ≤ length self.old.cursor) }
    {
        let timeout = self.number()?;
        let key = self.by()?;
        Ok(QueryStep::Session { timeout, key })
    }

    // The right side of a step, and its key.
    fn operand(&mut self) -> Result<(Label, NameList), Stop>
        ensures reads { Reads result operand_then (λ z. ends_step z ≡ true)
            (λ p v. (v.0 ≡ p.0) × (v.1 ≡ on_of p.1)) self.old.cursor self.new.cursor }
        ensures fewer { IfOk result (λ _. length self.new.cursor ≤ length self.old.cursor) }
    {
        let right = self.name()?;
        let key = self.on()?;
        Ok((right, key))
    }

    // A group, behind its word.
    fn group(&mut self) -> Result<QueryStep, Stop>
        ensures reads { Reads result group_then (λ z. ends_step z ≡ true)
            (λ p v. v ≡ T.Group (by_of p.0) (agg_of p.1
            ∷ map agg_of p.2)) self.old.cursor self.new.cursor }
        ensures fewer { IfOk result (λ _. length self.new.cursor ≤ length self.old.cursor) }
    {
        let key = self.by()?;
        self.needs(Sign::Colon)?;
        let aggs = self.aggs()?;
        Ok(QueryStep::Group { key, aggs })
    }

    // A literal, which is spelled as an operand of a product is.
    fn literal(&mut self) -> Result<Tree, Stop>
        ensures reads { Reads result unary_then Any
            (λ u v. v ≡ unary_onto u []) self.old.cursor self.new.cursor }
        ensures fewer { IfOk result (λ _. length self.new.cursor ≤ length self.old.cursor) }
    {
        self.nodes = Nodes::new(self.alloc);
        self.unary()?;
        let nodes = replace(&mut self.nodes, Nodes::new(self.alloc));
        Ok(nodes.into_tree())
    }

    // Literals with commas between them.
    fn literals(&mut self) -> Result<TreeList, Stop>
        ensures reads { Reads result lit_list_then (Lacks (fixed S.Comma))
            (λ p v. v ≡ lit_of p.0 ∷ map lit_of p.1) self.old.cursor self.new.cursor }
        ensures fewer { IfOk result (λ _. length self.new.cursor ≤ length self.old.cursor) }
    {
        let mut items = Vec::new(self.alloc);
        let first = self.literal()?;
        items.push(first)?;
        'more: while self.cursor.takes(Sign::Comma) {
            let next = self.literal()?;
            items.push(next)?;
        }
        Ok(TreeList::from_vec(items))
    }

    // The literals behind `else`, or none.
    fn fills(&mut self) -> Result<TreeList, Stop>
        ensures reads { Reads result else_then (λ z. Lacks (fixed S.Else) z
            × Lacks (fixed S.Comma) z) (λ x v. v ≡ fills_of x) self.old.cursor self.new.cursor }
        ensures fewer { IfOk result (λ _. length self.new.cursor ≤ length self.old.cursor) }
    {
        if self.cursor.takes(Sign::Else) {
            self.literals()
        } else {
            Ok(TreeList::from_vec(Vec::new(self.alloc)))
        }
    }

    // A left join, behind its word.
    fn left(&mut self) -> Result<QueryStep, Stop>
        ensures reads { Reads result left_then (λ z. ends_step z ≡ true)
            (λ p v. v ≡ T.Left p.0 (on_of p.1) (fills_of p.2)) self.old.cursor self.new.cursor }
        ensures fewer { IfOk result (λ _. length self.new.cursor ≤ length self.old.cursor) }
    {
        let right = self.name()?;
        let key = self.on()?;
        let fills = self.fills()?;
        Ok(QueryStep::Left { right, key, fills })
    }

    // The step `top`, behind its word.
    fn top(&mut self) -> Result<QueryStep, Stop>
        ensures reads { Reads result top_then Any
            (λ p v. v ≡ T.Top (suc p.0) (per_of p.1) p.2) self.old.cursor self.new.cursor }
        ensures fewer { IfOk result (λ _. length self.new.cursor ≤ length self.old.cursor) }
    {
        let count = self.positive()?;
        let key = self.per()?;
        self.needs(Sign::By)?;
        let by = self.name()?;
        Ok(QueryStep::Top { count, key, by })
    }

    // The step `follow`, behind its word.
    fn follow(&mut self) -> Result<QueryStep, Stop>
        ensures reads { Reads result follow_then Any
            (λ p v. v ≡ T.Follow p.0 (on_of p.1) (suc p.2)) self.old.cursor self.new.cursor }
        ensures fewer { IfOk result (λ _. length self.new.cursor ≤ length self.old.cursor) }
    {
        let right = self.name()?;
        let key = self.on()?;
        self.needs(Sign::Within)?;
        let within = self.positive()?;
        Ok(QueryStep::Follow { right, key, within })
    }

    // A step, by its first word.
    fn step(&mut self) -> Result<QueryStep, Stop>
        ensures reads { Reads result step_then (λ z. ends_step z ≡ true)
            (λ s v. v ≡ step_of s) self.old.cursor self.new.cursor }
        ensures fewer { IfOk result (λ _. length self.new.cursor ≤ length self.old.cursor) }
    {
        match self.cursor.takes_sign() {
            Some(Sign::Where) => Ok(QueryStep::Where(self.tree()?)),
            Some(Sign::Select) => Ok(QueryStep::Select(self.items()?)),
            Some(Sign::Union) => Ok(QueryStep::Union(self.name()?)),
            Some(Sign::Delay) => Ok(QueryStep::Delay(self.number()?)),
            Some(Sign::Duration) => Ok(QueryStep::Duration(self.number()?)),
            Some(Sign::Extend) => Ok(QueryStep::Extend(self.number()?)),
            Some(Sign::Tumble) => {
                let size = self.number()?;
                let period = size;
                Ok(QueryStep::Hop { size, period })
            }
            Some(Sign::Hop) => self.hop(),
            Some(Sign::Session) => self.session(),
            Some(Sign::Clip) => {
                let (right, key) = self.operand()?;
                Ok(QueryStep::Clip { right, key })
            }
            Some(Sign::Join) => {
                let (right, key) = self.operand()?;
                Ok(QueryStep::Join { right, key })
            }
            Some(Sign::Anti) => {
                let (right, key) = self.operand()?;
                Ok(QueryStep::Anti { right, key })
            }
            Some(Sign::Group) => self.group(),
            Some(Sign::Coalesce) => Ok(QueryStep::Coalesce),
            Some(Sign::Left) => self.left(),
            Some(Sign::Top) => self.top(),
            Some(Sign::Follow) => self.follow(),
            _ => Err(Stop::Stuck),
        }
    }

    /// A base, and the steps behind it.
    pub(crate) fn pipe(&mut self) -> Result<Pipe, Stop>
        ensures reads { Reads result pipe_then (λ z. ends_pipe z ≡ true)
            (λ p v. v ≡ pipe_of p) self.old.cursor self.new.cursor }
        ensures fewer { IfOk result (λ _. length self.new.cursor ≤ length self.old.cursor) }
    {
        let base = self.name()?;
        let mut items = Vec::new(self.alloc);
        'more: while self.cursor.takes(Sign::Bar) {
            let next = self.step()?;
            items.push(next)?;
        }
        Ok(Pipe {
            base,
            steps: StepList::from_vec(items),
        })
    }
}
