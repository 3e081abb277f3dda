// A query as its text spells it: streams, lets, pipes and steps, with names that are not looked up yet.
ghost use Rattle.std.specs.Prelude.{◌≡◌};

use crate::tree::Tree;
use plan_model::StreamList;
use std::marker::Model;
use tw_rows::Label;

/// A query: its streams, its lets, and the pipe whose rows are the result.
pub struct Query {
    pub streams: StreamList,
    pub lets: LetList,
    pub body: Pipe,
}

// By hand, so that crates that let one go cite this and not the destructors of its parts.
impl Drop for Query {
    fn drop(self) {
        let Query {
            streams: _streams,
            lets: _lets,
            body: _body,
        } = self;
    }
}

/// A pipe that has a name, by which the lets after it and the body can speak of it.
#[derive(Drop)]
pub struct Let {
    pub name: Label,
    pub pipe: Pipe,
}

/// A base, which is the name of a stream or of a let, and what is done with its rows, step by step.
pub struct Pipe {
    pub base: Label,
    pub steps: StepList,
}

// By hand, so that crates that let one go cite this and not the destructors of its parts.
impl Drop for Pipe {
    fn drop(self) {
        let Pipe {
            base: _base,
            steps: _steps,
        } = self;
    }
}

/// A step of a pipe. Sizes, periods, durations and timeouts are in the unit of the events' times.
#[derive(Drop)]
pub enum QueryStep {
    Where(Tree),
    Select(ItemList),
    Union(Label),
    Delay(u64),
    Duration(u64),
    Extend(u64),
    /// `tumble w` is the one with size and period w.
    Hop {
        size: u64,
        period: u64,
    },
    /// The key is empty where the text has none.
    Session {
        timeout: u64,
        key: NameList,
    },
    Clip {
        right: Label,
        key: NameList,
    },
    Join {
        right: Label,
        key: NameList,
    },
    Anti {
        right: Label,
        key: NameList,
    },
    Group {
        key: NameList,
        aggs: AggList,
    },
    Coalesce,
    /// The fills are literals: one for each column of the right side that is not in the key.
    Left {
        right: Label,
        key: NameList,
        fills: TreeList,
    },
    /// The rows with the greatest `count` values of the column `by`, for each value of the key.
    Top {
        count: u64,
        key: NameList,
        by: Label,
    },
    Follow {
        right: Label,
        key: NameList,
        within: u64,
    },
}

/// A column of a select: its name, and how its value is computed.
#[derive(Drop)]
pub struct Item {
    pub name: Label,
    pub tree: Tree,
}

/// What an aggregate does with the rows of a group.
#[derive(Clone, Copy, Debug, PartialEq, Eq)]
pub enum AggFun {
    Count,
    Sum,
    Min,
    Max,
    Avg,
}

/// An aggregate of a group: of which column, which only a count does without, and under which name.
#[derive(Drop)]
pub struct QueryAgg {
    pub fun: AggFun,
    pub column: Option<Label>,
    pub name: Label,
}

/// The lets of a query, in the order of its text.
#[derive(Drop)]
pub struct LetList {
    items: Vec<Let>,
}

impl Model for LetList {
    ghost use Rattle.std.specs.Prelude.{List};
    ghost use Rattle.query_text.specs.declared.query.Let.{Let as Item};

    ghost Value = { List Item };

    ghost view = { λ l. l.items.items };
}

impl LetList {
    /// The list of these. It takes no memory.
    pub fn from_vec(items: Vec<Let>) -> LetList
        ensures { result ≡ items.items }
    {
        LetList { items }
    }

    /// The lets, in the order of the text.
    pub fn items(&self) -> &[Let]
        ensures { result.now ≡ self.now }
    {
        self.items.as_slice()
    }
}

/// The steps of a pipe, the first one first.
#[derive(Drop)]
pub struct StepList {
    items: Vec<QueryStep>,
}

impl Model for StepList {
    ghost use Rattle.std.specs.Prelude.{List};
    ghost use Rattle.query_text.specs.declared.query.QueryStep.{QueryStep as Item};

    ghost Value = { List Item };

    ghost view = { λ l. l.items.items };
}

impl StepList {
    /// The list of these. It takes no memory.
    pub fn from_vec(items: Vec<QueryStep>) -> StepList
        ensures { result ≡ items.items }
    {
        StepList { items }
    }

    /// The steps, in the order of the text.
    pub fn items(&self) -> &[QueryStep]
        ensures { result.now ≡ self.now }
    {
        self.items.as_slice()
    }
}

/// The items of a select, in the order of its text.
#[derive(Drop)]
pub struct ItemList {
    items: Vec<Item>,
}

impl Model for ItemList {
    ghost use Rattle.std.specs.Prelude.{List};
    ghost use Rattle.query_text.specs.declared.query.Item.{Item as Listed};

    ghost Value = { List Listed };

    ghost view = { λ l. l.items.items };
}

impl ItemList {
    /// The list of these. It takes no memory.
    pub fn from_vec(items: Vec<Item>) -> ItemList
        ensures { result ≡ items.items }
    {
        ItemList { items }
    }

    /// The items, in the order of the text.
    pub fn items(&self) -> &[Item]
        ensures { result.now ≡ self.now }
    {
        self.items.as_slice()
    }
}

/// The aggregates of a group, in the order of its text.
#[derive(Drop)]
pub struct AggList {
    items: Vec<QueryAgg>,
}

impl Model for AggList {
    ghost use Rattle.std.specs.Prelude.{List};
    ghost use Rattle.query_text.specs.declared.query.QueryAgg.{QueryAgg as Item};

    ghost Value = { List Item };

    ghost view = { λ l. l.items.items };
}

impl AggList {
    /// The list of these. It takes no memory.
    pub fn from_vec(items: Vec<QueryAgg>) -> AggList
        ensures { result ≡ items.items }
    {
        AggList { items }
    }

    /// The aggregates, in the order of the text.
    pub fn items(&self) -> &[QueryAgg]
        ensures { result.now ≡ self.now }
    {
        self.items.as_slice()
    }
}

/// Names of columns, in the order of the text.
#[derive(Drop)]
pub struct NameList {
    items: Vec<Label>,
}

impl Model for NameList {
    ghost use Rattle.std.specs.Prelude.{List, ℕ};

    ghost Value = { List (List ℕ) };

    ghost view = { λ l. l.items.items };
}

impl NameList {
    /// The list of these. It takes no memory.
    pub fn from_vec(items: Vec<Label>) -> NameList
        ensures { result ≡ items.items }
    {
        NameList { items }
    }

    /// The names, in the order of the text.
    pub fn items(&self) -> &[Label]
        ensures { result.now ≡ self.now }
    {
        self.items.as_slice()
    }
}

/// The literals behind `else`, in the order of the text.
#[derive(Drop)]
pub struct TreeList {
    items: Vec<Tree>,
}

impl Model for TreeList {
    ghost use Rattle.std.specs.Prelude.{List};
    ghost use Rattle.query_text.specs.declared.tree.TreeNode.{TreeNode as Item};

    ghost Value = { List (List Item) };

    ghost view = { λ l. l.items.items };
}

impl TreeList {
    /// The list of these. It takes no memory.
    pub fn from_vec(items: Vec<Tree>) -> TreeList
        ensures { result ≡ items.items }
    {
        TreeList { items }
    }

    /// The literals, in the order of the text.
    pub fn items(&self) -> &[Tree]
        ensures { result.now ≡ self.now }
    {
        self.items.as_slice()
    }
}
