//! A function list.

ghost use Rattle.std.specs.Prelude.{◌≡◌, ◌↔◌, ◌<◌, ◌≤◌, List, length, map, slice_get, IfOk, OnOk, OnErr, IsSome};
ghost use Rattle.spec_views.specs.Tree.{Tree};
ghost use Rattle.spec_views.specs.Piece.{inverted};
ghost use Rattle.spec_views.specs.Leads.{LeadsTo, applied};
ghost use Rattle.spec_lang.specs.Func.{eval};
ghost use Rattle.spec_views.specs.Function.{function_view, function_follow, function_change};
ghost use Rattle.gl_kernel.specs.Found.{found};
ghost use Rattle.gl_function.specs.Stands.{StandsFor, contents, before, CanRetreat, IsUndo};

use crate::follow::follow;
use gl_delta::{Delta, Find};
use gl_kernel::{Editable, LogStep, ValueList, apply, element, take_back};
use gl_lang::Func;
use gl_value::{Shelf, Steps, Value};
use std::alloc::{AllocError, Global};
use std::marker::Model;
use std::mem;
use std::sync::ledger::Ledger;

/// What a function makes of each element of a list: the FunctionList of Glazed Lists. It keeps these results, so that
/// the old value of an element that is deleted or updated needn't be evaluated again.
#[derive(Drop)]
pub struct Function {
    alloc: Global,
    pub(crate) func: Func,
    pub(crate) results: ValueList,
}

impl Model for Function {
    ghost use Rattle.gl_function.specs.Kept.{Kept, kept_code};

    ghost Value = { Kept };

    ghost coded = { kept_code };

    ghost view = { λ f. record { func = f.func; values = f.results.values; room = f.results.room } };
}

/// What takes a function list back to where it stood before a change.
#[derive(Drop)]
pub struct FunctionUndo {
    pub(crate) func: Option<Func>,
    pub(crate) log: Vec<LogStep<Value>>,
}

impl Function {
    /// The function list of a list. It evaluates each element once.
    pub fn make<S: Shelf, L: Ledger>(
        alloc: Global,
        param: Func,
        input: &S,
        steps: &mut Steps<L>,
    ) -> Result<Function, AllocError>
        requires few { length (S.items input.now) ≤ 2147483647 }
        ensures stands { IfOk result (λ list. StandsFor list (S.items input.now)) }
        ensures func { IfOk result (λ list. list.func ≡ param) }
        ensures counted { steps.new ≡ steps.old }
    {
        let _ = steps;
        let mut results = ValueList::new(alloc);
        results.reserve(input.len())?;
        for position in 0..input.len() {
            let result = param.eval(alloc, element(input, position))?;
            results.insert(position, result);
        }
        Ok(Function {
            alloc,
            func: param,
            results,
        })
    }

    /// Follows a change of the list, whose new side is `input`. It evaluates each inserted and each updated element
    /// once; kept ones are passed over in one step for each stretch of them.
    pub fn advance<S: Shelf, L: Ledger>(
        &mut self,
        input: &S,
        d: &Delta,
        steps: &mut Steps<L>,
    ) -> Result<(Delta, FunctionUndo), AllocError>
        requires leads { LeadsTo d.now.pieces (S.items input.now) }
        requires stands { StandsFor self.old
            (applied (map inverted d.now.pieces) (S.items input.now)) }
        ensures pieces { IfOk result
            (λ told. told.0.pieces ≡ function_follow (eval self.old.func) d.now.pieces) }
        ensures stands { OnOk result (StandsFor self.new (S.items input.now)) }
        ensures undo { IfOk result (λ told. IsUndo told.1 self.old self.new) }
        ensures err { OnErr result (contents self.new ≡ contents self.old) }
        ensures func { self.new.func ≡ self.old.func }
        ensures room { self.old.room ≤ self.new.room }
        ensures counted { steps.new ≡ steps.old }
    {
        let _ = input;
        let _ = steps;
        let _olds = d.old_len();
        let _news = d.new_len();
        let plan = follow(self.alloc, &self.func, &self.results, d)?;
        let log = apply(self.alloc, &mut self.results, plan.log)?;
        Ok((plan.out, FunctionUndo { func: None, log }))
    }

    /// Takes another function in place of the one that it shows. It evaluates each element once.
    pub fn change<S: Shelf>(
        &mut self,
        param: Func,
        input: &S,
    ) -> Result<(Delta, FunctionUndo), AllocError>
        requires stands { StandsFor self.old (S.items input.now) }
        requires few { length (S.items input.now) ≤ 2147483647 }
        ensures pieces { IfOk result (λ told. told.0.pieces
            ≡ function_change (eval self.old.func) (eval param) (S.items input.now)) }
        ensures stands { OnOk result (StandsFor self.new (S.items input.now)) }
        ensures func { OnOk result (self.new.func ≡ param) }
        ensures undo { IfOk result (λ told. IsUndo told.1 self.old self.new) }
        ensures err { OnErr result (contents self.new ≡ contents self.old) }
        ensures room { self.old.room ≤ self.new.room }
    {
        let plan = self.replan(self.alloc, &param, input)?;
        let log = apply(self.alloc, &mut self.results, plan.log)?;
        let old = mem::replace(&mut self.func, param);
        Ok((
            plan.out,
            FunctionUndo {
                func: Some(old),
                log,
            },
        ))
    }

    /// Goes back to where the list stood before its last change, whose undo this is. It takes no memory.
    pub fn retreat(&mut self, undo: FunctionUndo)
        requires { CanRetreat undo self.old }
        ensures back { contents self.new ≡ before undo self.old }
        ensures room { self.old.room ≤ self.new.room }
    {
        let FunctionUndo { func, log } = undo;
        take_back(&mut self.results, log);
        if let Some(func) = func {
            self.func = func;
        }
    }

    /// How many elements are shown.
    pub fn len(&self) -> usize
        ensures view { (xs : List Tree) → StandsFor self.now xs
            → result ≡ length (function_view (eval self.now.func) xs) }
        ensures len { result ≡ length self.now.values }
    {
        self.results.len()
    }

    /// Where the element that is shown at a place stands, or `None` exactly where the place isn't below the length.
    pub fn find(&self, position: usize) -> Option<Find<'_>>
        ensures view { (xs : List Tree) → StandsFor self.now xs
            → found result xs ≡ slice_get (function_view (eval self.now.func) xs) position }
        ensures some { IsSome result ↔ (position < length self.now.values) }
    {
        match self.results.get(position) {
            Some(value) => Some(Find::Own(value)),
            None => None,
        }
    }

    /// The function that it shows.
    pub fn func(&self) -> &Func
        ensures { result.now ≡ self.now.func }
    {
        &self.func
    }
}
