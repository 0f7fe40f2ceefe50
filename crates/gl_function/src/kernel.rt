//! A function list as a list over one input.

use crate::function::{Function, FunctionUndo};
use gl_delta::{Delta, Find};
use gl_kernel::Kernel;
use gl_lang::{EditKind, Func};
use gl_value::{Shelf, Steps};
use std::alloc::AllocError;
use std::sync::ledger::Ledger;

impl Kernel for Function {
    type Param = Func;

    type Undo = FunctionUndo;

    ghost use Rattle.std.specs.Prelude.{◌≡◌};
    ghost use Rattle.spec_lang.specs.Func.{eval};
    ghost use Rattle.spec_views.specs.Function.{function_view, function_follow, function_change};
    ghost use Rattle.gl_function.specs.Stands.{StandsFor, contents, before, CanRetreat, IsUndo};

    ghost shows_by = { λ f. f.func };

    ghost stands_for = { StandsFor };

    ghost view = { λ f xs. function_view (eval f) xs };

    ghost follow = { λ f xs ps. function_follow (eval f) ps };

    ghost change_told = { λ old new xs. function_change (eval old) (eval new) xs };

    ghost says = { λ kind old new. Unit {0} };

    ghost is_same = { λ old new. contents new ≡ contents old };

    ghost is_undo = { IsUndo };

    ghost can_retreat = { CanRetreat };

    ghost leads_back = { λ undo old new. contents new ≡ before undo old };

    fn advance<S: Shelf, L: Ledger>(
        &mut self,
        input: &S,
        d: &Delta,
        steps: &mut Steps<L>,
    ) -> Result<(Delta, FunctionUndo), AllocError> {
        Function::advance(self, input, d, steps)
    }

    fn change<S: Shelf, L: Ledger>(
        &mut self,
        param: Func,
        _kind: EditKind,
        input: &S,
        _steps: &mut Steps<L>,
    ) -> Result<(Delta, FunctionUndo), AllocError> {
        Function::change(self, param, input)
    }

    fn retreat(&mut self, undo: FunctionUndo) {
        Function::retreat(self, undo);
    }

    fn len(&self) -> usize {
        Function::len(self)
    }

    fn find(&self, position: usize) -> Option<Find<'_>> {
        Function::find(self, position)
    }
}
