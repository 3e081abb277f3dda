// Clips, joins, anti-joins and follows.
ghost use Rattle.std.specs.Prelude.{◌≡◌, IfOk};
ghost use Rattle.query_plan.specs.Answer.{Is};
ghost use Rattle.query_plan.specs.Steps.{clip_step, join_node, join_step, anti_step, follow_step};

use crate::checks::needs;
use crate::draft::PlannedNode;
use crate::sides::{PlannedSides, key_copy};
use crate::steps::StepContext;
use plan_model::{Node, QueryError, QueryFault};
use query_text::NameList;
use tw_rows::{Label, Memory};

impl<'a> StepContext<'a> {
    /// Both sides are of events.
    pub(crate) fn clip_step(
        &self,
        name: &Label,
        names: &NameList,
    ) -> Result<Vec<PlannedNode>, QueryError>
        ensures { Is (λ v. v.items) result
            (clip_step self.now.item self.now.draft.now self.now.at name.now names.now) }
    {
        let both = self.find_sides(name, names)?;
        self.over_events(self.at)?;
        self.over_events(both.right)?;
        self.alone(Node::Clip {
            left: self.at,
            right: both.right,
            left_key: both.left_key,
            right_key: both.right_key,
        })
    }

    /// The pairs of a left and a right row with equal keys.
    pub(crate) fn join_node(&self, sides: &PlannedSides) -> Result<PlannedNode, Memory>
        ensures { IfOk result (λ p. p ≡ join_node self.now.draft.now self.now.at sides.now) }
    {
        let schema = self.joined_schema(sides)?;
        let node = Node::Join {
            left: self.at,
            right: sides.right,
            left_key: key_copy(self.alloc, &sides.left_key)?,
            right_key: key_copy(self.alloc, &sides.right_key)?,
        };
        Ok(PlannedNode { node, schema })
    }

    /// The left columns, and then the right ones outside the key.
    pub(crate) fn join_step(
        &self,
        name: &Label,
        names: &NameList,
    ) -> Result<Vec<PlannedNode>, QueryError>
        ensures { Is (λ v. v.items) result
            (join_step self.now.item self.now.draft.now self.now.at name.now names.now) }
    {
        let both = self.find_sides(name, names)?;
        let join = self.join_node(&both)?;
        let nodes = vec![in self.alloc; join]?;
        Ok(nodes)
    }

    /// A group of the right keys alone, and the anti-join with it.
    pub(crate) fn anti_step(
        &self,
        name: &Label,
        names: &NameList,
    ) -> Result<Vec<PlannedNode>, QueryError>
        ensures { Is (λ v. v.items) result
            (anti_step self.now.item self.now.draft.now self.now.at name.now names.now) }
    {
        let both = self.find_sides(name, names)?;
        let group = self.key_group(&both)?;
        let anti = self.anti_node(&both, self.draft.len())?;
        let nodes = vec![in self.alloc; group, anti]?;
        Ok(nodes)
    }

    /// Both sides are of events, and the time is at least 1.
    pub(crate) fn follow_step(
        &self,
        name: &Label,
        names: &NameList,
        within: u64,
    ) -> Result<Vec<PlannedNode>, QueryError>
        ensures { Is (λ v. v.items) result
            (follow_step self.now.item self.now.draft.now self.now.at name.now names.now within) }
    {
        let both = self.find_sides(name, names)?;
        self.over_events(self.at)?;
        self.over_events(both.right)?;
        needs(within >= 1, QueryFault::BadWindow { item: self.item })?;
        let schema = self.joined_schema(&both)?;
        self.one(
            Node::Follow {
                left: self.at,
                right: both.right,
                left_key: both.left_key,
                right_key: both.right_key,
                within,
            },
            schema,
        )
    }
}
