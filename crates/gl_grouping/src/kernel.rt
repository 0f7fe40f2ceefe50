//! A grouping as a list over one input.

use crate::grouping::{Grouping, GroupingUndo};
use gl_delta::{Delta, Find};
use gl_kernel::Kernel;
use gl_lang::{EditKind, Order};
use gl_value::{Shelf, Steps};
use std::alloc::AllocError;
use std::sync::ledger::Ledger;

impl Kernel for Grouping {
    type Param = Order;

    type Undo = GroupingUndo;

    ghost use Rattle.std.specs.Prelude.{◌≡◌, ⊤};
    ghost use Rattle.gl_classes.specs.Sorting.{order_cmp};
    ghost use Rattle.spec_classes.specs.Grouping.{grouping_view, grouping_follow, grouping_change};
    ghost use Rattle.gl_grouping.specs.Stands.{StandsFor, contents, before, CanRetreat, IsUndo};

    ghost shows_by = { λ g. g.classes.list.order };

    ghost stands_for = { StandsFor };

    ghost view = { λ o xs. grouping_view (order_cmp o) xs };

    ghost follow = { λ o xs ps. grouping_follow (order_cmp o) xs ps };

    ghost change_told = { λ old new xs. grouping_change (order_cmp old) (order_cmp new) xs };

    ghost says = { λ kind old new. ⊤ };

    ghost is_same = { λ old new. contents new ≡ contents old };

    ghost is_undo = { IsUndo };

    ghost can_retreat = { CanRetreat };

    ghost leads_back = { λ undo old new. contents new ≡ before undo old };

    fn advance<S: Shelf, L: Ledger>(
        &mut self,
        input: &S,
        d: &Delta,
        steps: &mut Steps<L>,
    ) -> Result<(Delta, GroupingUndo), AllocError> {
        Grouping::advance(self, input, d, steps)
    }

    fn change<S: Shelf, L: Ledger>(
        &mut self,
        param: Order,
        _kind: EditKind,
        input: &S,
        steps: &mut Steps<L>,
    ) -> Result<(Delta, GroupingUndo), AllocError> {
        Grouping::change(self, param, input, steps)
    }

    fn retreat(&mut self, undo: GroupingUndo) {
        Grouping::retreat(self, undo);
    }

    fn len(&self) -> usize {
        Grouping::len(self)
    }

    fn find(&self, place: usize) -> Option<Find<'_>> {
        Grouping::find(self, place)
    }
}
