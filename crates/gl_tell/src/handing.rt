//! The deltas of lists, handed to their listeners.

ghost use Rattle.std.specs.Prelude.{◌≡◌, ◌<◌, length, slice_index_or, slice_set, None, OnOk, IfOk};
ghost use Rattle.std.specs.List.{AllByRecursion};
ghost use Rattle.gl_tell.specs.Handed.{IsHanded, AreGiven};

use gl_delta::{Delta, Deltas};
use gl_value::Memory;

/// Hands the delta of a list, if there is one, to these listeners. It takes memory for all copies but that of the last of
/// them, which has the delta itself.
pub(crate) fn hand(
    list: u32,
    listeners: &[u32],
    deltas: &mut Deltas,
    heard: &mut Deltas,
) -> Result<(), Memory>
    requires list { list < length deltas.old }
    requires known { AllByRecursion (λ k. k < length heard.old) listeners.now }
    ensures left { deltas.new ≡ slice_set deltas.old list None }
    ensures handed { OnOk result
        (IsHanded (slice_index_or deltas.old list None) listeners.now heard.old heard.new) }
{
    match deltas.take(list) {
        None => Ok(()),
        Some(delta) => give(delta, listeners, heard),
    }
}

// Gives each of these listeners a delta.
fn give(delta: Delta, listeners: &[u32], heard: &mut Deltas) -> Result<(), Memory>
    requires known { AllByRecursion (λ k. k < length heard.old) listeners.now }
    ensures { OnOk result (AreGiven delta.pieces listeners.now heard.old heard.new) }
{
    match listeners.split_last() {
        None => Ok(()),
        Some((last, others)) => {
            give_copies(&delta, others, heard)?;
            heard.put(*last, delta);
            Ok(())
        }
    }
}

fn give_copies(delta: &Delta, listeners: &[u32], heard: &mut Deltas) -> Result<(), Memory>
    requires known { AllByRecursion (λ k. k < length heard.old) listeners.now }
    ensures { OnOk result (AreGiven delta.now.pieces listeners.now heard.old heard.new) }
{
    for listener in listeners {
        heard.put(*listener, delta.copy()?);
    }
    Ok(())
}
