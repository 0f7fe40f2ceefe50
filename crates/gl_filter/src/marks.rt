//! The marks of a filter: put in, looked for, and changed by the steps of a log.

ghost use Rattle.std.specs.Prelude.{◌≡◌, ◌++◌, ◌≤◌, ◌<◌, ◌^◌, ◌-◌, ◌∷◌, [], length, drop, None, IfSome, IfOk, OnOk};
ghost use Rattle.gl_kernel.specs.Fates.{edits_of};
ghost use Rattle.gl_filter.specs.Told.{switch, AreAll, IsNext};
ghost use Rattle.gl_filter.specs.Marked.{marked};

use gl_barcode::Barcode;
use gl_kernel::LogStep;
use std::alloc::{AllocError, Global};

/// Marks that are put in from left to right, equal neighbours in one edit.
#[derive(Drop)]
pub(crate) struct Marking {
    marks: Barcode,
    // The mark of the last places, and how many of these aren't put in yet.
    last: bool,
    run: usize,
}

impl Marking {
    /// No marks. It takes no memory.
    pub(crate) fn new(alloc: Global) -> Marking
        ensures { marked result ≡ [] }
    {
        Marking {
            marks: Barcode::new(alloc),
            last: false,
            run: 0,
        }
    }

    /// One mark more. It takes memory where it is another one than the last.
    pub(crate) fn push(&mut self, shown: bool) -> Result<(), AllocError>
        requires { length (marked self.old) < 2 ^ 32 - 1 }
        ensures { OnOk result (marked self.new ≡ marked self.old ++ shown ∷ []) }
    {
        if shown == self.last {
            self.run += 1;
            return Ok(());
        }
        self.marks.append(self.last, self.run)?;
        self.last = shown;
        self.run = 1;
        Ok(())
    }

    /// All marks.
    pub(crate) fn finish(self) -> Result<Barcode, AllocError>
        requires { length (marked self) < 2 ^ 32 }
        ensures { IfOk result (λ marks. marks.shown ≡ marked self) }
    {
        let Marking {
            mut marks,
            last,
            run,
        } = self;
        marks.append(last, run)?;
        Ok(marks)
    }
}

/// The next place from one on that hasn't this mark, `None` where all from there on have it.
pub(crate) fn next_other(marks: &Barcode, mark: Option<bool>, position: usize) -> Option<usize>
    requires { position ≤ length marks.now.shown }
    ensures next { IfSome result (IsNext mark marks.now.shown position) }
    ensures none { result ≡ None → AreAll mark (drop position marks.now.shown) }
{
    match mark {
        Some(false) => marks.select(marks.rank(position)),
        Some(true) => marks.select_hidden(position - marks.rank(position)),
        None => {
            if position < marks.len() {
                Some(position)
            } else {
                None
            }
        }
    }
}

/// The step of a log that changes a mark, where it is to be another one.
pub(crate) fn note(
    log: &mut Vec<LogStep<bool>>,
    position: usize,
    was: bool,
    is: bool,
) -> Result<(), AllocError>
    ensures { OnOk result
        (log.new.items ≡ log.old.items ++ edits_of position (switch was is ∷ [])) }
{
    if was != is {
        log.push(LogStep::Set(position, is))?;
    }
    Ok(())
}
