//! A filter as a list over one input.

use crate::filter::{Filter, FilterUndo};
use gl_delta::{Delta, Find};
use gl_kernel::Kernel;
use gl_lang::{EditKind, Matcher};
use gl_value::{Shelf, Steps};
use std::alloc::AllocError;
use std::sync::ledger::Ledger;

impl Kernel for Filter {
    type Param = Matcher;

    type Undo = FilterUndo;

    ghost use Rattle.std.specs.Prelude.{◌≡◌};
    ghost use Rattle.spec_views.specs.Kind.{Says};
    ghost use Rattle.spec_views.specs.Matcher.{accepts};
    ghost use Rattle.spec_views.specs.Filter.{filter_view, filter_follow, filter_change};
    ghost use Rattle.gl_filter.specs.Stands.{StandsFor, contents, before, CanRetreat, IsUndo};

    ghost shows_by = { λ f. f.matcher };

    ghost stands_for = { StandsFor };

    ghost view = { λ m xs. filter_view (accepts m) xs };

    ghost follow = { λ m xs ps. filter_follow (accepts m) xs ps };

    ghost change_told = { λ old new xs. filter_change (accepts old) (accepts new) xs };

    ghost says = { Says };

    ghost is_same = { λ old new. contents new ≡ contents old };

    ghost is_undo = { IsUndo };

    ghost can_retreat = { CanRetreat };

    ghost leads_back = { λ undo old new. contents new ≡ before undo old };

    fn advance<S: Shelf, L: Ledger>(
        &mut self,
        input: &S,
        d: &Delta,
        steps: &mut Steps<L>,
    ) -> Result<(Delta, FilterUndo), AllocError> {
        Filter::advance(self, input, d, steps)
    }

    fn change<S: Shelf, L: Ledger>(
        &mut self,
        param: Matcher,
        kind: EditKind,
        input: &S,
        steps: &mut Steps<L>,
    ) -> Result<(Delta, FilterUndo), AllocError> {
        Filter::change(self, param, kind, input, steps)
    }

    fn retreat(&mut self, undo: FilterUndo) {
        Filter::retreat(self, undo);
    }

    fn len(&self) -> usize {
        Filter::len(self)
    }

    fn find(&self, position: usize) -> Option<Find<'_>> {
        Filter::find(self, position)
    }
}
