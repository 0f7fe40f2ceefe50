//! The marks of the first members of classes.

ghost use Rattle.std.specs.Prelude.{◌≡◌, ◌≤◌, ◌++◌, not, length, map, IfOk, OnOk};
ghost use Rattle.gl_classes.specs.Firsts.{step_edits, all_edits};

use gl_arranged::{Arrangement, Step};
use gl_barcode::Barcode;
use gl_kernel::LogStep;
use std::alloc::{AllocError, Global};

/// For each place in sorted order whether its element is the first of its class. It takes memory by the number of classes.
pub fn firsts_of(alloc: Global, list: &Arrangement) -> Result<Barcode, AllocError>
    requires few { length list.now.tree.places ≤ 2147483647 }
    requires long { length list.now.tree.marks ≡ length list.now.tree.places }
    ensures { IfOk result (λ firsts. firsts.shown ≡ map not list.now.tree.marks) }
{
    let mut firsts = Barcode::new(alloc);
    for place in 0..list.len() {
        firsts.append(!list.same_key_before(place), 1)?;
    }
    Ok(firsts)
}

// The edits of one step more.
fn note(log: &mut Vec<LogStep<bool>>, step: Step) -> Result<(), AllocError>
    ensures { OnOk result (log.new.items ≡ log.old.items ++ step_edits step) }
{
    match step {
        Step::Removed(_, spot) => {
            if spot.after && !spot.before {
                log.push(LogStep::Set(spot.place, true))?;
            }
            log.push(LogStep::Remove(spot.place))?;
            Ok(())
        }
        Step::Inserted(_, spot) => {
            log.push(LogStep::Insert(spot.place, !spot.before))?;
            if spot.after && !spot.before {
                log.push(LogStep::Set(spot.place, false))?;
            }
            Ok(())
        }
    }
}

/// The edits of the marks that go with the steps of an arrangement. It takes memory for them.
pub fn edits(alloc: Global, steps: &[Step]) -> Result<Vec<LogStep<bool>>, AllocError>
    ensures { IfOk result (λ log. log.items ≡ all_edits steps.now) }
{
    let mut log = Vec::new(alloc);
    let mut left = steps.len();
    'steps: while left > 0 {
        left -= 1;
        note(&mut log, steps[left])?;
    }
    Ok(log)
}
