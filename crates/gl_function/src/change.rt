//! What a function list tells when it gets another function, and the edits of what it keeps.

ghost use Rattle.std.specs.Prelude.{◌≡◌, ◌≤◌, length, IfOk};
ghost use Rattle.spec_lang.specs.Func.{eval};
ghost use Rattle.spec_views.specs.Function.{function_change};
ghost use Rattle.gl_kernel.specs.Fates.{edits_of};
ghost use Rattle.gl_function.specs.Told.{renewed};
ghost use Rattle.gl_function.specs.Stands.{StandsFor};

use crate::follow::tell_updated;
use crate::function::Function;
use gl_kernel::{Plan, element};
use gl_lang::Func;
use gl_value::{Shelf, Value};
use std::alloc::{AllocError, Global};

impl Function {
    /// What is told of another function, and the edits of the results.
    pub(crate) fn replan<S: Shelf>(
        &self,
        alloc: Global,
        param: &Func,
        input: &S,
    ) -> Result<Plan<Value>, AllocError>
        requires stands { StandsFor self.now (S.items input.now) }
        requires few { length (S.items input.now) ≤ 2147483647 }
        ensures told { IfOk result (λ plan. plan.out.pieces
            ≡ function_change (eval self.now.func) (eval param.now) (S.items input.now)) }
        ensures edits { IfOk result (λ plan. plan.log.items
            ≡ edits_of 0 (renewed (eval param.now) (S.items input.now))) }
    {
        let mut plan = Plan::new(alloc);
        for position in 0..input.len() {
            let old = element(&self.results, position);
            tell_updated(alloc, param, &mut plan, old, element(input, position))?;
        }
        let _normal = plan.out.old_len();
        Ok(plan)
    }
}
