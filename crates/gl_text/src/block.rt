//! Blocks of CSV records.

ghost use Rattle.std.specs.Prelude.{◌≡◌, ◌<◌, ◌+◌, ◌-◌, ◌^◌, ◌++◌, [], length, IsUtf8, OnOk, MatchResult, MatchOption, None};
ghost use Rattle.spec_plan_texts.specs.Cuts.{cut};
ghost use Rattle.spec_plan_texts.specs.Reading.{rows_of};
ghost use Rattle.gl_text.specs.Goes.{IsReading};
ghost use Rattle.gl_text.specs.Blocks.{IsBlock, IsEndless, IsAfter, BlockGoesOn, BlockStops};

use crate::reading::{Reading, copied};
use crate::records::block_rows;
use crate::stop::{Stop, fault};
use gl_lines::{Line, Named, PlanKind};
use gl_syntax::cut;
use gl_value::Value;
use std::alloc::{AllocError, Global};

/// The bytes of a block, those after the line that ends it, and how many lines it and that line are.
#[derive(Clone, Copy)]
pub(crate) struct Block<'a> {
    pub(crate) bytes: &'a [u8],
    pub(crate) after: &'a [u8],
    pub(crate) lines: u64,
}

/// Adds a `row` line for each record of the block in front, and answers the bytes after the block. The number is that of
/// the `csv` line.
#[tactic(auto, using(crate::proofs::Progress::block_goes, crate::proofs::Progress::block_endless, crate::proofs::Progress::block_memory))]
pub(crate) fn with_block<'a>(
    alloc: Global,
    reading: &mut Reading,
    number: u64,
    named: &Named,
    others: &'a [u8],
) -> Result<&'a [u8], Stop>
    requires is { IsReading reading.old }
    requires utf8 { IsUtf8 others.now }
    requires few { reading.old.number + length others.now < 2 ^ 64 }
    ensures { MatchResult result
        (λ rest. BlockGoesOn reading.old number named.now others.now reading.new rest.now)
        (BlockStops reading.old number named.now others.now) }
{
    let Some(block) = block_ahead(others) else {
        return Err(fault(number, 1, PlanKind::Block));
    };
    let rows = block_rows(alloc, block.bytes)?;
    with_rows(alloc, reading, number, named, rows.as_slice())?;
    reading.number += block.lines;
    Ok(block.after)
}

// Adds a `row` line for each of the elements.
fn with_rows(
    alloc: Global,
    reading: &mut Reading,
    number: u64,
    named: &Named,
    rows: &[Value],
) -> Result<(), AllocError>
    requires { IsReading reading.old }
    ensures lines { OnOk result
        (reading.new.lines ≡ reading.old.lines ++ rows_of number named.now rows.now) }
    ensures number { reading.new.number ≡ reading.old.number }
    ensures is { OnOk result (IsReading reading.new) }
{
    for row in rows {
        let list = copied(named)?;
        let value = row.copy()?;
        reading.put(number, Line::Row { list, value })?;
    }
    Ok(())
}

// The block in front, up to the next line `end csv`.
#[tactic(auto, using(crate::proofs::Passes::passed_start))]
fn block_ahead(bytes: &[u8]) -> Option<Block<'_>>
    ensures { MatchOption result (IsEndless bytes.now)
        (λ block. IsBlock bytes.now block.bytes.now block.after.now block.lines) }
{
    let mut rest = bytes;
    let mut lines = 0;
    'lines: while let Some((raw, others)) = cut(rest, b'\n') {
        if raw == b"end csv".as_slice() {
            let len = bytes.len() - rest.len();
            return Some(Block {
                bytes: &bytes[..len],
                after: others,
                lines: lines + 1,
            });
        }
        rest = others;
        lines += 1;
    }
    last_ahead(bytes, rest, lines)
}

// The block whose last line has no line feed.
fn last_ahead<'a>(bytes: &'a [u8], rest: &[u8], lines: u64) -> Option<Block<'a>>
    requires passed { IsAfter bytes.now rest.now lines }
    requires last { cut 10 rest.now ≡ None }
    ensures { MatchOption result (IsEndless bytes.now)
        (λ block. IsBlock bytes.now block.bytes.now block.after.now block.lines) }
{
    if rest != b"end csv".as_slice() {
        return None;
    }
    let len = bytes.len() - rest.len();
    Some(Block {
        bytes: &bytes[..len],
        after: &[],
        lines: lines + 1,
    })
}
