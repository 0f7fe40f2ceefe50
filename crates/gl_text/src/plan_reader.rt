//! The plan of a text.

ghost use Rattle.std.specs.Prelude.{◌≡◌, ◌≤◌, ◌<◌, ◌+◌, length, take, IsUtf8, MatchResult, MatchOption};
ghost use Rattle.spec_plan_texts.specs.Cuts.{lines_in};
ghost use Rattle.spec_plan_texts.specs.Reading.{all_read};
ghost use Rattle.spec_plan_texts.specs.Text.{ReadsTo, SpellsPlan, place_behind, utf8_fault};
ghost use Rattle.gl_text.specs.Spelled.{IsFault, IsHeader, LacksHeader, IsPlaceFault};

use crate::reading::read_lines;
use crate::stop::Stop;
use gl_lines::{Lines, PlanKind};
use gl_plan::{Plan, PlanFault};
use gl_syntax::{Bytes, next_line};
use std::alloc::Global;

/// The plan that the bytes spell, or their first fault: by its line and column, or as the names of a cycle. It goes a few
/// times over the bytes, finds names in logarithmic time, and takes memory in proportion to the bytes.
pub fn read_plan(alloc: Global, bytes: &[u8]) -> Result<Plan, PlanFault>
    ensures { MatchResult result (SpellsPlan bytes.now) (IsFault bytes.now) }
{
    match text_lines(alloc, bytes) {
        Ok(lines) => Plan::from_lines(alloc, lines),
        Err(fault) => Err(fault),
    }
}

/// As `read_plan`, of bytes that are given up once their lines are read, so that they take no room beside the plan.
pub fn into_plan(alloc: Global, bytes: Bytes) -> Result<Plan, PlanFault>
    ensures { MatchResult result (SpellsPlan bytes) (IsFault bytes) }
{
    let lines = text_lines(alloc, bytes.as_slice());
    drop(bytes);
    match lines {
        Ok(lines) => Plan::from_lines(alloc, lines),
        Err(fault) => Err(fault),
    }
}

// The lines of a text after its first one, or the first fault that is no fault of names.
#[tactic(auto, using(crate::proofs::Whole::lines_read, crate::proofs::Whole::line_stops, crate::proofs::Whole::header_fault, crate::proofs::Whole::bytes_fault))]
fn text_lines(alloc: Global, bytes: &[u8]) -> Result<Lines, PlanFault>
    ensures { MatchResult result (λ lines. ReadsTo bytes.now (all_read lines)) (IsFault bytes.now) }
{
    if let Err(fault) = str::from_utf8(bytes) {
        return Err(utf8_fault(bytes, fault.valid_up_to()));
    }
    let Some(rest) = after_header(bytes) else {
        return Err(PlanFault::At {
            line: 1,
            column: 1,
            kind: PlanKind::Header,
        });
    };
    match read_lines(alloc, rest) {
        Ok(lines) => Ok(lines),
        Err(Stop::Fault(fault)) => Err(PlanFault::At {
            line: fault.line,
            column: fault.column,
            kind: fault.kind,
        }),
        Err(Stop::Memory) => Err(PlanFault::Memory),
    }
}

// The bytes after the first line, where that is `glaze 1`.
#[tactic(auto, using(crate::proofs::Whole::header_is, crate::proofs::Whole::header_other, crate::proofs::Whole::header_none))]
fn after_header(bytes: &[u8]) -> Option<&[u8]>
    ensures { MatchOption result (LacksHeader bytes.now) (λ rest. IsHeader bytes.now rest.now) }
{
    match next_line(bytes) {
        Some((first, rest)) => {
            if first == b"glaze 1".as_slice() {
                Some(rest)
            } else {
                None
            }
        }
        None => None,
    }
}

// The fault at the first byte after so many.
fn utf8_fault(bytes: &[u8], valid: usize) -> PlanFault
    requires { valid ≤ length bytes.now }
    ensures { IsPlaceFault (place_behind (take valid bytes.now)) result }
{
    let (line, column) = place_behind(&bytes[..valid]);
    PlanFault::At {
        line,
        column,
        kind: PlanKind::Utf8,
    }
}

// The line and the column of the byte after these.
fn place_behind(bytes: &[u8]) -> (u64, u64)
    ensures line { result.0 ≡ (place_behind bytes.now).0 }
    ensures column { result.1 ≡ (place_behind bytes.now).1 }
{
    let mut line = 1;
    let mut column = 1;
    'bytes: for byte in bytes {
        if *byte == b'\n' {
            line += 1;
            column = 1;
        } else {
            column += 1;
        }
    }
    (line, column)
}
