//! Deltas that lead on one from the other, kept as they are.

ghost use Rattle.std.specs.Prelude.{◌≡◌, ◌++◌, ◌∷◌, ◌<◌, ◌≤◌, [], length, take, IfOk};
ghost use Rattle.spec_lists.specs.Piece.{old_len, new_len};
ghost use Rattle.spec_lists.specs.Delta.{composed};
ghost use Rattle.spec_lists.specs.Sides.{sides};
ghost use Rattle.gl_delta.specs.Old.{IsOldAt};
ghost use Rattle.gl_held.specs.Parts.{GoesOn, LeadOn, parts_of, together};

use gl_delta::{Delta, Old};
use std::alloc::{AllocError, Global};
use std::sync::Arc;

/// The parts with one more. Those at the end that have no more than twice its changes are composed with it, so that each part
/// has more than twice the changes of the next one, and an element is composed no oftener than a few times for each doubling.
pub(crate) fn with_next(
    alloc: Global,
    parts: &[Arc<Delta>],
    next: &Delta,
) -> Result<Vec<Arc<Delta>>, AllocError>
    requires leads { LeadOn (parts_of parts.now) }
    requires fits { new_len (together (parts_of parts.now)) ≡ old_len next.now.pieces }
    ensures { IfOk result
        (λ made. GoesOn (parts_of parts.now) next.now.pieces (parts_of made.items)) }
{
    let mut last = next.copy()?;
    let mut kept = parts.len();
    'merges: while kept > 0 && parts[kept - 1].changes() <= 2 * last.changes() {
        last = joined(&parts[kept - 1], last)?;
        kept -= 1;
    }
    shared(alloc, parts, kept, last)
}

// A delta composed with one that leads on from it.
fn joined(first: &Delta, next: Delta) -> Result<Delta, AllocError>
    requires { old_len next.pieces ≡ new_len first.now.pieces }
    ensures { IfOk result (λ d. d.pieces ≡ composed first.now.pieces next.pieces) }
{
    let mut whole = first.copy()?;
    whole.reserve_for(&next)?;
    whole.absorb(next);
    Ok(whole)
}

// The first so many parts, which are shared, and another one after them.
fn shared(
    alloc: Global,
    parts: &[Arc<Delta>],
    kept: usize,
    last: Delta,
) -> Result<Vec<Arc<Delta>>, AllocError>
    requires { kept ≤ length parts.now }
    ensures { IfOk result
        (λ made. parts_of made.items ≡ take kept (parts_of parts.now) ++ last.pieces ∷ []) }
{
    let mut made = Vec::new(alloc);
    'parts: for at in 0..kept {
        made.push(Arc::try_clone(&parts[at])?)?;
    }
    made.push(Arc::new(alloc, last)?)?;
    Ok(made)
}

/// The composition of the parts.
pub(crate) fn whole(parts: &[Arc<Delta>]) -> Result<Delta, AllocError>
    requires { LeadOn (parts_of parts.now) }
    ensures { IfOk result (λ d. d.pieces ≡ together (parts_of parts.now)) }
{
    let mut left = parts.len() - 1;
    let mut whole = parts[left].copy()?;
    'parts: while left > 0 {
        left -= 1;
        whole = joined(&parts[left], whole)?;
    }
    Ok(whole)
}

/// What became of an element of the first part's old list.
pub(crate) fn old_at(parts: &[Arc<Delta>], position: usize) -> Old<'_>
    requires leads { LeadOn (parts_of parts.now) }
    requires within { position < old_len (together (parts_of parts.now)) }
    ensures { IsOldAt (sides (together (parts_of parts.now))).old position result }
{
    let last = parts.len() - 1;
    let mut at = position;
    'parts: for part in 0..last {
        match parts[part].old_at(at) {
            Old::Kept(later) => at = later,
            Old::Value(v) => return Old::Value(v),
        }
    }
    parts[last].old_at(at)
}
