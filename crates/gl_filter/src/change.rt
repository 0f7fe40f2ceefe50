//! What a filter tells when it gets another matcher, and the steps that change its marks.

ghost use Rattle.std.specs.Prelude.{◌≡◌, ◌+◌, ◌-◌, ◌<◌, ◌≤◌, [], length, take, drop, IfOk, OnOk};
ghost use Rattle.spec_views.specs.Piece.{identity, normal};
ghost use Rattle.spec_views.specs.Matcher.{accepts};
ghost use Rattle.spec_views.specs.Kind.{Says};
ghost use Rattle.gl_kernel.specs.Fates.{edits_of};
ghost use Rattle.gl_kernel.specs.Plans.{GoesOn, CanTell};
ghost use Rattle.gl_filter.specs.Told.{told_change, switches, left_mark, shown_among, SaysHere, question, questions};
ghost use Rattle.gl_filter.specs.Stands.{StandsFor};

use crate::filter::Filter;
use crate::marks::{next_other, note};
use gl_delta::Cell;
use gl_kernel::{Plan, element, tell, tell_kept};
use gl_lang::{EditKind, Matcher};
use gl_value::{Shelf, Steps, Value};
use std::alloc::{AllocError, Global};
use std::sync::ledger::Ledger;

impl Filter {
    /// What is told of another matcher, and the steps that change the marks. The elements that the kind leaves as they
    /// are aren't read: their stretches are passed over in one step each.
    pub(crate) fn replan<S: Shelf, L: Ledger>(
        &self,
        alloc: Global,
        param: &Matcher,
        kind: EditKind,
        input: &S,
        steps: &mut Steps<L>,
    ) -> Result<Plan<bool>, AllocError>
        requires stands { StandsFor self.now (S.items input.now) }
        requires says { Says kind self.now.matcher param.now }
        requires few { length (S.items input.now) ≤ 2147483647 }
        ensures told { IfOk result (λ plan. plan.out.pieces
            ≡ normal (told_change (accepts self.now.matcher) (accepts param.now) (S.items input.now))) }
        ensures edits { IfOk result (λ plan. plan.log.items
            ≡ edits_of 0 (switches (accepts self.now.matcher) (accepts param.now) (S.items input.now))) }
        ensures counted { steps.new ≤ steps.old + questions kind self.now.shown }
    {
        let mark = left_mark(kind);
        let mut plan = Plan::new(alloc);
        'visited: while let Some(position) = next_other(&self.marks, mark, plan.position) {
            pass(&mut plan, mark, position)?;
            self.visit(param, kind, input, &mut plan, steps)?;
        }
        pass(&mut plan, mark, self.marks.len())?;
        Ok(plan)
    }

    // What is told of one element, and the step that changes its mark.
    fn visit<S: Shelf, L: Ledger>(
        &self,
        param: &Matcher,
        kind: EditKind,
        input: &S,
        plan: &mut Plan<bool>,
        steps: &mut Steps<L>,
    ) -> Result<(), AllocError>
        requires within { plan.old.position < length (S.items input.now) }
        requires stands { StandsFor self.now (S.items input.now) }
        requires says { Says kind self.now.matcher param.now }
        requires few { length (S.items input.now) ≤ 2147483647 }
        requires can { CanTell (told_change (accepts self.now.matcher) (accepts param.now)
            (take 1 (drop plan.old.position (S.items input.now)))) plan.old.out.pieces }
        ensures ok { OnOk result (GoesOn
            (told_change (accepts self.now.matcher) (accepts param.now) (take 1 (drop plan.old.position (S.items input.now))))
            (edits_of plan.old.position
            (switches (accepts self.now.matcher) (accepts param.now) (take 1 (drop plan.old.position (S.items input.now)))))
            1 plan.old plan.new) }
        ensures counted { steps.new
            ≡ steps.old + questions kind (take 1 (drop plan.old.position self.now.shown)) }
    {
        let position = plan.position;
        let v = element(input, position);
        let was = self.marks.shown(position);
        let is = decide(param, kind, was, v, steps);
        tell_kept(&mut plan.out, was, is, v)?;
        note(&mut plan.log, position, was, is)?;
        plan.position += 1;
        Ok(())
    }
}

// The mark of the elements that a kind leaves as they are.
fn left_mark(kind: EditKind) -> Option<bool>
    ensures { result ≡ left_mark kind }
{
    match kind {
        EditKind::All => Some(true),
        EditKind::Nothing => Some(false),
        EditKind::Constrained => Some(false),
        EditKind::Relaxed => Some(true),
        EditKind::Changed => None,
    }
}

// Passes over the elements up to a place, which have this mark and keep it.
fn pass(plan: &mut Plan<bool>, mark: Option<bool>, position: usize) -> Result<(), AllocError>
    requires onward { plan.old.position ≤ position }
    requires can { CanTell (identity (shown_among mark (position - plan.old.position)))
        plan.old.out.pieces }
    ensures { OnOk result (GoesOn
        (identity (shown_among mark (position - plan.old.position))) [] (position - plan.old.position) plan.old plan.new) }
{
    let shown = match mark {
        Some(true) => position - plan.position,
        Some(false) => 0,
        None => 0,
    };
    tell(&mut plan.out, Cell::Keep(shown))?;
    plan.position = position;
    Ok(())
}

// Whether an element is accepted that was shown or not. The matcher is asked only where the kind leaves it open.
fn decide<L: Ledger>(
    param: &Matcher,
    kind: EditKind,
    was: bool,
    v: &Value,
    steps: &mut Steps<L>,
) -> bool
    requires { SaysHere kind was (accepts param.now v.now) }
    ensures value { result ≡ accepts param.now v.now }
    ensures counted { steps.new ≡ steps.old + question kind was }
{
    match kind {
        EditKind::All => true,
        EditKind::Nothing => false,
        EditKind::Constrained => was && param.accepts(v, steps),
        EditKind::Relaxed => was || param.accepts(v, steps),
        EditKind::Changed => param.accepts(v, steps),
    }
}
