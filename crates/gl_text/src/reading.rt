//! The lines of a plan's text, one after another.

ghost use Rattle.std.specs.Prelude.{◌≡◌, ◌<◌, ◌+◌, ◌-◌, ◌^◌, ◌↔◌, ◌∷◌, ◌++◌, [], length, IsUtf8, IfOk, OnOk, IsTrue, MatchResult, false};
ghost use Rattle.spec_plan_texts.specs.Cuts.{lines_in};
ghost use Rattle.spec_plan_texts.specs.Reading.{all_read, outside, Comes, IsSkipped, opened_by, numbered, SpellsLine};
ghost use Rattle.spec_plan_texts.specs.Place.{is_too_many};
ghost use Rattle.gl_text.specs.Goes.{StopsAfter, StopsFor, IsReading, GoesOn, GoesOnWith, StopsWith, IsLineFault};

use crate::block::with_block;
use crate::shared_names::SharedNames;
use crate::stop::{Stop, fault};
use gl_line_reader::read_line;
use gl_lines::{Line, Lines, Named, NumberedLine, PlanKind};
use gl_plan::Before;
use gl_syntax::{ReadFault, next_line};
use gl_value::Items;
use std::alloc::{AllocError, Global};

// A line has at most so many bytes, outside of blocks.
const MOST_BYTES: usize = 1_048_576;

/// What was read of a text, and the number of the line after it.
#[derive(Drop)]
pub(crate) struct Reading {
    pub(crate) lines: Lines,
    pub(crate) before: Before,
    pub(crate) number: u64,
}

impl Reading {
    /// Adds a line of a number, which isn't one too many. It takes memory for the line.
    pub(crate) fn put(&mut self, number: u64, line: Line) -> Result<(), AllocError>
        requires is { IsReading self.old }
        requires few { is_too_many self.old.lines line ≡ false }
        ensures lines { OnOk result (self.new.lines ≡ self.old.lines ++ numbered number line ∷ []) }
        ensures number { self.new.number ≡ self.old.number }
        ensures is { OnOk result (IsReading self.new) }
    {
        let before = self.before.with(&line);
        push(
            &mut self.lines,
            NumberedLine {
                line: number,
                what: line,
            },
        )?;
        self.before = before;
        Ok(())
    }
}

// Adds a line at the end.
fn push(lines: &mut Lines, line: NumberedLine) -> Result<(), AllocError>
    ensures { OnOk result (lines.new ≡ lines.old ++ line ∷ []) }
{
    match lines.push(line) {
        Ok(()) => Ok(()),
        Err((line, failed)) => {
            drop(line);
            Err(failed)
        }
    }
}

/// The lines of a text after its first one, which is the second line of the plan, with a `row` line for each record of a
/// block after its `csv` line; or the first fault of the lines' length, form or place. It goes once over the bytes, and
/// takes memory in proportion to them; lines about the same list share its name.
pub fn read_lines(alloc: Global, bytes: &[u8]) -> Result<Lines, Stop>
    requires { IsUtf8 bytes.now }
    ensures { MatchResult result (λ lines. Comes outside [] 2 (lines_in bytes.now) (all_read lines))
        (StopsFor (lines_in bytes.now)) }
{
    let mut reading = Reading {
        lines: Items::new(alloc),
        before: Before::nothing(),
        number: 2,
    };
    let mut names = SharedNames::new(alloc);
    let mut rest = bytes;
    'lines: while let Some((raw, others)) = next_line(rest) {
        rest = with_raw(alloc, &mut names, &mut reading, raw, others)?;
    }
    Ok(reading.lines)
}

// Adds a line, with the block that it opens, and answers the bytes after them.
#[tactic(auto, using(crate::proofs::Progress::skipped_goes))]
fn with_raw<'a>(
    alloc: Global,
    names: &mut SharedNames,
    reading: &mut Reading,
    raw: &[u8],
    others: &'a [u8],
) -> Result<&'a [u8], Stop>
    requires is { IsReading reading.old }
    requires utf8 { IsUtf8 others.now }
    requires few { reading.old.number + length others.now < 2 ^ 64 - 1 }
    ensures { MatchResult result
        (λ rest. GoesOn reading.old raw.now others.now reading.new rest.now)
        (StopsAfter reading.old.lines reading.old.number (raw.now ∷ lines_in others.now)) }
{
    if raw.len() > MOST_BYTES {
        let column = MOST_BYTES as u64 + 1;
        return Err(fault(reading.number, column, PlanKind::LongLine));
    }
    if is_skipped(raw) {
        reading.number += 1;
        return Ok(others);
    }
    match line_of(alloc, names, raw) {
        Ok(line) => with_line(alloc, reading, line, others),
        Err(ReadFault::Form { column }) => Err(fault(reading.number, column, PlanKind::Form)),
        Err(ReadFault::Memory) => Err(Stop::Memory),
    }
}

// The line that the bytes spell. The name of the list that it is about is shared with earlier lines.
#[tactic(auto, unfolding(spec_plan_texts::specs::Reading::SpellsLine, spec_plan_texts::specs::Reading::LeavesLines))]
fn line_of(alloc: Global, names: &mut SharedNames, raw: &[u8]) -> Result<Line, ReadFault>
    ensures { MatchResult result (SpellsLine raw.now) (IsLineFault raw.now) }
{
    match read_line(alloc, raw) {
        Ok(line) => shared(names, line),
        Err(fault) => Err(fault),
    }
}

fn shared(names: &mut SharedNames, mut line: Line) -> Result<Line, ReadFault>
    ensures { MatchResult result (λ same. same ≡ line) (λ fault. fault ≡ ReadFault.Memory) }
{
    match names.share(&mut line) {
        Ok(()) => Ok(line),
        Err(_) => {
            drop(line);
            Err(ReadFault::Memory)
        }
    }
}

// Whether a line is empty or a comment.
fn is_skipped(raw: &[u8]) -> bool
    ensures { IsTrue result ↔ IsSkipped raw.now }
{
    match raw {
        [] => true,
        [first, ..] => *first == b'#',
    }
}

// Adds a line that was read, with the block that it opens.
#[tactic(auto, using(crate::proofs::Progress::plain_goes, crate::proofs::Progress::opening_goes, crate::proofs::Progress::opening_stops, crate::proofs::Progress::misplaced_stops, crate::proofs::Progress::placed_few, crate::proofs::Progress::line_memory))]
fn with_line<'a>(
    alloc: Global,
    reading: &mut Reading,
    line: Line,
    others: &'a [u8],
) -> Result<&'a [u8], Stop>
    requires is { IsReading reading.old }
    requires utf8 { IsUtf8 others.now }
    requires few { reading.old.number + length others.now < 2 ^ 64 - 1 }
    ensures { MatchResult result
        (λ rest. GoesOnWith reading.old line others.now reading.new rest.now)
        (StopsWith reading.old line others.now) }
{
    let number = reading.number;
    if let Some(kind) = reading.before.fault(&line) {
        drop(line);
        return Err(fault(number, 1, kind));
    }
    let Ok(opened) = opened(&line) else {
        drop(line);
        return Err(Stop::Memory);
    };
    reading.put(number, line)?;
    reading.number += 1;
    match opened {
        Some(named) => with_block(alloc, reading, number, &named, others),
        None => Ok(others),
    }
}

// The name of the source for which a line opens a block.
fn opened(line: &Line) -> Result<Option<Named>, AllocError>
    ensures { IfOk result (λ named. named ≡ opened_by line.now) }
{
    match line {
        Line::Csv { list } => Ok(Some(copied(list)?)),
        _ => Ok(None),
    }
}

/// The same name in the same column, in memory that both share.
pub(crate) fn copied(named: &Named) -> Result<Named, AllocError>
    ensures { IfOk result (λ copy. copy ≡ named.now) }
{
    Ok(Named {
        name: named.name.copy()?,
        column: named.column,
    })
}
