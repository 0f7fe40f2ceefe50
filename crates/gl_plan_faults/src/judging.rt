//! The first fault of lines.

ghost use Rattle.std.specs.Prelude.{◌≡◌, ◌<◌, ◌≤◌, ◌^◌, ◌+◌, ◌++◌, length, option_to_list, IfOk};
ghost use Rattle.spec_plans.specs.Lines.{head_of, hearer_of};
ghost use Rattle.spec_plans.specs.Names.{heads, hearers};
ghost use Rattle.spec_plans.specs.NameFaults.{undone_inputs, first_misnamed, first_fault_at};
ghost use Rattle.gl_plan_faults.specs.Known.{IsKnown};

use crate::judge::name_fault;
use crate::known::Known;
use crate::line::{list_head, listener_head};
use crate::names::NameTable;
use crate::passed::Passed;
use crate::placing::misplaced;
use gl_lines::{Line, Lines};
use spec_plans::FaultAt;
use std::alloc::{AllocError, Global};

/// The first fault of the lines: a line that may not stand where it stands or is one too many, or else a name that stands for
/// nothing or for the wrong thing. It takes time in proportion to the lines, times a logarithm, and memory in proportion to the
/// names that they declare.
#[tactic(auto, using(crate::proofs::Few::few_lists_in, crate::proofs::Few::few_listeners_in))]
pub fn first_fault(alloc: Global, lines: &Lines) -> Result<Option<FaultAt>, AllocError>
    ensures { IfOk result (λ fault. fault ≡ first_fault_at lines.now) }
{
    match misplaced(lines) {
        Some(found) => Ok(Some(FaultAt {
            line: found.line,
            column: 1,
            kind: found.kind,
        })),
        None => {
            let known = Known::new(alloc, lines.as_slice())?;
            let fault = first_misnamed(alloc, &known)?;
            Ok(fault)
        }
    }
}

// The first fault of names.
#[tactic(auto, using(crate::proofs::PassedLines::few_passed, crate::proofs::PassedLines::few_heard))]
fn first_misnamed(alloc: Global, known: &Known<'_>) -> Result<Option<FaultAt>, AllocError>
    requires known { IsKnown known.now }
    requires lists { length (heads known.now.lines.now) ≤ 256 }
    requires listeners { length (hearers known.now.lines.now) ≤ 256 }
    ensures { IfOk result (λ fault. fault ≡ first_misnamed known.now.lines.now) }
{
    let mut passed = Passed {
        place: 0,
        lists: 0,
        listeners: 0,
        undone: NameTable::new(alloc),
    };
    for line in known.lines {
        match name_fault(known, &passed, &line.what) {
            Some(fault) => {
                return Ok(Some(FaultAt {
                    line: line.line,
                    column: fault.column,
                    kind: fault.kind,
                }));
            }
            None => passed = with_line(passed, &line.what)?,
        }
    }
    Ok(None)
}

// The count with a line more.
fn with_line(passed: Passed, line: &Line) -> Result<Passed, AllocError>
    requires place { passed.place < 2 ^ 63 }
    requires lists { passed.lists < 2 ^ 32 }
    requires listeners { passed.listeners < 2 ^ 63 }
    requires undone { length passed.undone ≤ passed.lists }
    ensures place { IfOk result (λ more. more.place ≡ passed.place + 1) }
    ensures lists { IfOk result
        (λ more. more.lists ≡ passed.lists + length (option_to_list (head_of line.now))) }
    ensures listeners { IfOk result
        (λ more. more.listeners ≡ passed.listeners + length (option_to_list (hearer_of line.now))) }
    ensures undone { IfOk result
        (λ more. more.undone ≡ passed.undone ++ undone_inputs (option_to_list (head_of line.now))) }
{
    Ok(Passed {
        place: passed.place + 1,
        lists: with_list(passed.lists, line),
        listeners: with_listener(passed.listeners, line),
        undone: with_undone(passed.undone, line)?,
    })
}

fn with_list(lists: usize, line: &Line) -> usize
    requires { lists < 2 ^ 63 }
    ensures { result ≡ lists + length (option_to_list (head_of line.now)) }
{
    match list_head(line) {
        Some(_) => lists + 1,
        None => lists,
    }
}

fn with_listener(listeners: usize, line: &Line) -> usize
    requires { listeners < 2 ^ 63 }
    ensures { result ≡ listeners + length (option_to_list (hearer_of line.now)) }
{
    match listener_head(line) {
        Some(_) => listeners + 1,
        None => listeners,
    }
}

// The inputs of transactions with that of the line, where it declares one.
fn with_undone(undone: NameTable, line: &Line) -> Result<NameTable, AllocError>
    requires { length undone < 2 ^ 32 }
    ensures { IfOk result
        (λ more. more ≡ undone ++ undone_inputs (option_to_list (head_of line.now))) }
{
    match line {
        Line::Transaction { input, .. } => undone.with(&input.name),
        _ => Ok(undone),
    }
}
