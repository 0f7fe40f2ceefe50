//! The steps in which an arrangement follows a change, and the way back.

ghost use Rattle.std.specs.Prelude.{◌≡◌};
ghost use Rattle.gl_arranged.specs.Steps.{taken_back, all_taken_back, CanTakeBack, CanTakeAllBack};

use gl_order::{OrderTree, Spot};

/// One step: the element at a source place was taken out, where it had this spot, or one was put in there, where it has it.
#[derive(Clone, Copy)]
pub enum Step {
    Removed(usize, Spot),
    Inserted(usize, Spot),
}

// Takes a step back.
fn take_back(tree: &mut OrderTree, step: Step)
    requires { CanTakeBack step tree.old }
    ensures { tree.new ≡ taken_back step tree.old }
{
    match step {
        Step::Removed(source, spot) => tree.put_back(source, spot),
        Step::Inserted(source, _) => {
            tree.remove(source);
        }
    }
}

/// Takes steps back, the last one first. It takes no memory and compares nothing.
pub(crate) fn take_all_back(tree: &mut OrderTree, mut steps: Vec<Step>)
    requires { CanTakeAllBack steps.items tree.old }
    ensures { tree.new ≡ all_taken_back steps.items tree.old }
{
    'steps: while let Some(step) = steps.pop() {
        take_back(tree, step);
    }
}
