//! A range as a list over one input.

use crate::range::{RangeKernel, RangeUndo};
use gl_delta::{Delta, Find};
use gl_kernel::Kernel;
use gl_lang::{Bounds, EditKind};
use gl_value::{Shelf, Steps};
use std::alloc::AllocError;
use std::sync::ledger::Ledger;

impl Kernel for RangeKernel {
    type Param = Bounds;

    type Undo = RangeUndo;

    ghost use Rattle.std.specs.Prelude.{◌≡◌};
    ghost use Rattle.spec_views.specs.Range.{range_view, range_follow, range_change};
    ghost use Rattle.gl_range.specs.Stands.{StandsFor, before};

    ghost shows_by = { λ r. r.bounds };

    ghost stands_for = { StandsFor };

    ghost view = { range_view };

    ghost follow = { range_follow };

    ghost change_told = { range_change };

    ghost says = { λ kind old new. Unit {0} };

    ghost is_same = { λ old new. new ≡ old };

    ghost is_undo = { λ undo old new. before undo ≡ old };

    ghost can_retreat = { λ undo r. Unit {0} };

    ghost leads_back = { λ undo old new. new ≡ before undo };

    fn advance<S: Shelf, L: Ledger>(
        &mut self,
        input: &S,
        d: &Delta,
        steps: &mut Steps<L>,
    ) -> Result<(Delta, RangeUndo), AllocError> {
        RangeKernel::advance(self, input, d, steps)
    }

    fn change<S: Shelf, L: Ledger>(
        &mut self,
        param: Bounds,
        _kind: EditKind,
        input: &S,
        _steps: &mut Steps<L>,
    ) -> Result<(Delta, RangeUndo), AllocError> {
        RangeKernel::change(self, param, input)
    }

    fn retreat(&mut self, undo: RangeUndo) {
        RangeKernel::retreat(self, undo);
    }

    fn len(&self) -> usize {
        RangeKernel::len(self)
    }

    fn find(&self, position: usize) -> Option<Find<'_>> {
        RangeKernel::find(self, position)
    }
}
