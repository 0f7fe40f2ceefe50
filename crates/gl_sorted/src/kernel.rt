//! A sorted list as a list over one input.

use crate::sorted::{Sorted, SortedUndo};
use gl_delta::{Delta, Find};
use gl_kernel::Kernel;
use gl_lang::{EditKind, Order};
use gl_value::{Shelf, Steps};
use std::alloc::AllocError;
use std::sync::ledger::Ledger;

impl Kernel for Sorted {
    type Param = Order;

    type Undo = SortedUndo;

    ghost use Rattle.std.specs.Prelude.{◌≡◌, ⊤};
    ghost use Rattle.gl_arranged.specs.Sorting.{order_cmp};
    ghost use Rattle.spec_sorting.specs.Sorted.{sorted_view, sorted_follow, sorted_change};
    ghost use Rattle.gl_arranged.specs.Stands.{StandsFor, contents, before, CanRetreat, IsUndo};

    ghost shows_by = { λ s. s.order };

    ghost stands_for = { StandsFor };

    ghost view = { λ o xs. sorted_view (order_cmp o) xs };

    ghost follow = { λ o xs ps. sorted_follow (order_cmp o) xs ps };

    ghost change_told = { λ old new xs. sorted_change (order_cmp old) (order_cmp new) xs };

    ghost says = { λ kind old new. ⊤ };

    ghost is_same = { λ old new. contents new ≡ contents old };

    ghost is_undo = { IsUndo };

    ghost can_retreat = { CanRetreat };

    ghost leads_back = { λ undo old new. new ≡ before undo old };

    fn advance<S: Shelf, L: Ledger>(
        &mut self,
        input: &S,
        d: &Delta,
        steps: &mut Steps<L>,
    ) -> Result<(Delta, SortedUndo), AllocError> {
        Sorted::advance(self, input, d, steps)
    }

    fn change<S: Shelf, L: Ledger>(
        &mut self,
        param: Order,
        _kind: EditKind,
        input: &S,
        steps: &mut Steps<L>,
    ) -> Result<(Delta, SortedUndo), AllocError> {
        Sorted::change(self, param, input, steps)
    }

    fn retreat(&mut self, undo: SortedUndo) {
        Sorted::retreat(self, undo);
    }

    fn len(&self) -> usize {
        Sorted::len(self)
    }

    fn find(&self, place: usize) -> Option<Find<'_>> {
        Sorted::find(self, place)
    }
}
