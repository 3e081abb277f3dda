// What a Union keeps from one step to the next, and a Union that keeps nothing yet.
ghost use Rattle.std.specs.Prelude.{◌≡◌, ◌≤◌, min, false, [], length, IfOk};
ghost use Rattle.edge_history.specs.Order.{failing, is_from};
ghost use Rattle.edge_stream.specs.Lists.{no_edges};
ghost use Rattle.edge_stream.specs.Listing.{cells_of};

use edge_stream::EdgeList;
use std::alloc::Global;
use tw_rows::{Kind, Memory, Time};

/// The operator of a Union, Trill's: the edges of both sides in one order, equal ones as often as they come. Where one side is
/// closed up to a later time than the other, the edges that are not below the lesser time are carried, each side by itself.
pub struct Union {
    pub(crate) alloc: Global,
    pub(crate) left: EdgeList,
    pub(crate) right: EdgeList,
    pub(crate) left_to: Time,
    pub(crate) right_to: Time,
    pub(crate) failed: bool,
    ghost left_late: { failed ≡ false → failing (is_from (min left_to right_to)) left.edges ≡ 0 },
    ghost right_late: { failed ≡ false → failing (is_from (min left_to right_to)) right.edges ≡ 0 },
    ghost alike: { cells_of right ≡ cells_of left },
    ghost capacity: { right.capacity ≡ left.capacity },
}

// By hand, so that its users cite this and not the destructors of its parts.
impl Drop for Union {
    fn drop(self) {
        let Union {
            alloc: _,
            left: _left,
            right: _right,
            left_to: _,
            right_to: _,
            failed: _,
        } = self;
    }
}

impl Union {
    /// The operator of a Union of rows with columns of these kinds, in batches of that capacity.
    pub fn new(alloc: Global, kinds: &[Kind], capacity: usize) -> Result<Union, Memory>
        requires width { length kinds.now ≤ 32 }
        requires room { 1 ≤ capacity }
        ensures left { IfOk result (λ o. o.left ≡ no_edges kinds.now capacity) }
        ensures right { IfOk result (λ o. o.right ≡ o.left) }
        ensures times { IfOk result (λ o. (o.left_to ≡ 0) × (o.right_to ≡ 0)) }
        ensures works { IfOk result (λ o. o.failed ≡ false) }
    {
        Ok(Union {
            alloc,
            left: EdgeList::new(alloc, kinds, capacity)?,
            right: EdgeList::new(alloc, kinds, capacity)?,
            left_to: Time::bounds().0,
            right_to: Time::bounds().0,
            failed: false,
        })
    }
}
