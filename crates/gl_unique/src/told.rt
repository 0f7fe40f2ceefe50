//! What a unique list tells of a change, from the touched keys.

ghost use Rattle.std.specs.Prelude.{◌≡◌, ◌+◌, ◌<◌, ◌≤◌, ◌++◌, ◌∷◌, [], IfOk, OnOk, length};
ghost use Rattle.spec_sorting.specs.Piece.{normal};
ghost use Rattle.spec_sorting.specs.Leads.{LeadsTo, undone};
ghost use Rattle.spec_sorting.specs.Source.{element_at};
ghost use Rattle.spec_classes.specs.Slots.{kept_before, after_one, told_by};
ghost use Rattle.spec_classes.specs.Told.{first_value, is_still, unique_piece};
ghost use Rattle.gl_kernel.specs.Plans.{CanTell};
ghost use Rattle.gl_classes.specs.InTurn.{IsNext};
ghost use Rattle.gl_unique.specs.Reading.{IsThere, CanRead, CanTellAll, told_next};

use gl_classes::{First, Reached, Slot, old_value};
use gl_delta::{Cell, Delta};
use gl_kernel::{element, tell, tell_delete, tell_insert, tell_update};
use gl_value::{Shelf, Value};
use std::alloc::{AllocError, Global};

// The element that a class of the old list showed.
fn first_value<'a, S: Shelf>(input: &'a S, d: &'a Delta, first: First) -> &'a Value
    requires leads { LeadsTo d.now.pieces (S.items input.now) }
    requires there { IsThere d.now.pieces (S.items input.now) first }
    ensures { result.now
        ≡ first_value (undone d.now.pieces (S.items input.now)) (S.items input.now) first }
{
    match first {
        First::Gone(source) => old_value(d, source),
        First::Plain(place) => element(input, place),
    }
}

// Whether it is the one that the class shows now.
fn is_still(first: First, shown: usize) -> bool
    ensures { result ≡ is_still first shown }
{
    match first {
        First::Gone(_) => false,
        First::Plain(place) => place == shown,
    }
}

// A touched key.
fn tell_slot<S: Shelf>(out: &mut Delta, input: &S, d: &Delta, slot: Slot) -> Result<(), AllocError>
    requires leads { LeadsTo d.now.pieces (S.items input.now) }
    requires read { CanRead d.now.pieces (S.items input.now) slot }
    requires can { CanTell
        (unique_piece (undone d.now.pieces (S.items input.now)) (S.items input.now) slot ∷ [])
        out.old.pieces }
    ensures { OnOk result (out.new.pieces ≡ normal (out.old.pieces
        ++ unique_piece (undone d.now.pieces (S.items input.now)) (S.items input.now) slot ∷ [])) }
{
    match slot.old {
        Some(old) => match slot.new {
            Some(new) => {
                if is_still(old.first, new.first) {
                    tell(out, Cell::Keep(1))
                } else {
                    let was = first_value(input, d, old.first);
                    let is = element(input, new.first);
                    tell_update(out, true, true, was, is)
                }
            }
            None => tell_delete(out, true, first_value(input, d, old.first)),
        },
        None => match slot.new {
            Some(new) => tell_insert(out, true, element(input, new.first)),
            None => tell(out, Cell::Keep(1)),
        },
    }
}

// The next touched key, and the classes that are kept before it. It answers how far both lists are told then.
fn tell_next<S: Shelf>(
    out: &mut Delta,
    at: Reached,
    input: &S,
    d: &Delta,
    slot: Slot,
) -> Result<Reached, AllocError>
    requires leads { LeadsTo d.now.pieces (S.items input.now) }
    requires next { IsNext at.olds at.news slot }
    requires few_olds { at.olds + kept_before at.olds at.news slot ≤ 2147483647 }
    requires few_news { at.news + kept_before at.olds at.news slot ≤ 2147483647 }
    requires read { CanRead d.now.pieces (S.items input.now) slot }
    requires can { CanTell
        (told_next (unique_piece (undone d.now.pieces (S.items input.now)) (S.items input.now))
        at.olds at.news slot) out.old.pieces }
    ensures out { OnOk result (out.new.pieces ≡ normal (out.old.pieces
        ++ told_next (unique_piece (undone d.now.pieces (S.items input.now)) (S.items input.now))
        at.olds at.news slot)) }
    ensures olds { IfOk result (λ next. next.olds
        ≡ after_one (at.olds + kept_before at.olds at.news slot) slot.old) }
    ensures news { IfOk result (λ next. next.news
        ≡ after_one (at.news + kept_before at.olds at.news slot) slot.new) }
{
    let kept = at.kept_before(slot);
    tell(out, Cell::Keep(kept))?;
    tell_slot(out, input, d, slot)?;
    Ok(at.past(kept, slot))
}

/// What is told of touched keys, where there were so many classes: the classes between them are kept in one step.
pub(crate) fn told<S: Shelf>(
    alloc: Global,
    olds: usize,
    input: &S,
    d: &Delta,
    slots: &[Slot],
) -> Result<Delta, AllocError>
    requires { CanTellAll d.now.pieces (S.items input.now) olds slots.now }
    ensures { IfOk result (λ out. out.pieces ≡ normal (told_by
        (unique_piece (undone d.now.pieces (S.items input.now)) (S.items input.now)) olds 0 0 slots.now)) }
{
    let mut out = Delta::start(alloc);
    let mut at = Reached::start();
    for index in 0..slots.len() {
        at = tell_next(&mut out, at, input, d, slots[index])?;
    }
    tell(&mut out, Cell::Keep(olds - at.olds))?;
    Ok(out)
}
