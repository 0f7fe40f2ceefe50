//! The bounds of ranges.

ghost use Rattle.std.specs.Prelude.{◌≡◌, codes};
ghost use Rattle.spec_syntax.specs.Reader.{after_word, sep};
ghost use Rattle.spec_syntax.specs.LanguageReader.{read_short, read_two_numbers, read_bounds};
ghost use Rattle.gl_line_reader.specs.Ends.{bounds_of};
ghost use Rattle.gl_syntax.specs.Stop.{Reads};

use crate::table::row_ahead;
use gl_lang::Bounds;
use gl_syntax::{Stop, natural_ahead, word};

#[derive(Clone, Copy)]
enum End {
    Head,
    Tail,
    Middle,
}

const ENDS: [(&str, End); 3] = [
    ("head ", End::Head),
    ("tail ", End::Tail),
    ("middle ", End::Middle),
];

/// The bounds and the bytes after them.
#[tactic(auto, using(crate::proofs::Words::bounds_on, crate::proofs::Words::bounds_stop))]
pub(crate) fn bounds_ahead(bytes: &[u8]) -> Result<(Bounds, &[u8]), Stop>
    ensures { Reads result (read_bounds bytes.now) }
{
    let (end, rest) = row_ahead(&ENDS, bytes)?;
    bounds_after(end, rest)
}

// The bounds of this end, and the bytes after them.
fn bounds_after(end: End, bytes: &[u8]) -> Result<(Bounds, &[u8]), Stop>
    ensures { Reads result (read_two_numbers (bounds_of end) bytes.now) }
{
    let ((a, b), rest) = numbers_ahead(bytes)?;
    Ok((bounds_of(end, a, b), rest))
}

fn bounds_of(end: End, a: u32, b: u32) -> Bounds
    ensures { result ≡ bounds_of end a b }
{
    match end {
        End::Head => Bounds::Head(a, b),
        End::Tail => Bounds::Tail(a, b),
        End::Middle => Bounds::Middle(a, b),
    }
}

#[tactic(auto, using(spec_syntax::proofs::Joints::after_on, spec_syntax::proofs::Joints::later_stops))]
fn numbers_ahead(bytes: &[u8]) -> Result<((u32, u32), &[u8]), Stop>
    ensures { Reads result (sep read_short (codes " ") read_short bytes.now) }
{
    let (a, rest) = short_ahead(bytes)?;
    let (b, rest) = short_after_space(rest)?;
    Ok(((a, b), rest))
}

#[tactic(auto, using(spec_syntax::proofs::Joints::after_on, spec_syntax::proofs::Joints::later_stops))]
fn short_after_space(bytes: &[u8]) -> Result<(u32, &[u8]), Stop>
    ensures { Reads result (after_word (codes " ") read_short bytes.now) }
{
    let rest = word(b" ", bytes)?;
    short_ahead(rest)
}

/// The number of 32 bits and the bytes after it.
pub(crate) fn short_ahead(bytes: &[u8]) -> Result<(u32, &[u8]), Stop>
    ensures { Reads result (read_short bytes.now) }
{
    let (number, rest) = natural_ahead(u64::from(u32::MAX), bytes)?;
    Ok((number as u32, rest))
}
