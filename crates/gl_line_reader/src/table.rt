//! Tables of words.

ghost use Rattle.std.specs.Prelude.{◌≡◌, min};
ghost use Rattle.spec_syntax.specs.Reader.{found, table};
ghost use Rattle.gl_syntax.specs.Stop.{Reads};
ghost use Rattle.gl_line_reader.specs.Table.{rows_of};

use gl_syntax::{Stop, word};

/// What the word calls for that the bytes begin with, and the bytes after it. No word of the table begins another.
#[tactic(auto, using(crate::proofs::Tables::row_stands, crate::proofs::Tables::row_falls, crate::proofs::Tables::no_row, crate::proofs::Tables::all_least))]
pub(crate) fn row_ahead<'a, K: Copy>(
    rows: &[(&str, K)],
    bytes: &'a [u8],
) -> Result<(K, &'a [u8]), Stop>
    ensures { Reads result (table found (rows_of rows.now) bytes.now) }
{
    let mut least = bytes.len();
    for row in rows {
        match word(row.0.as_bytes(), bytes) {
            Ok(rest) => return Ok((row.1, rest)),
            Err(Stop::Form { left }) => least = lesser(least, left),
            Err(Stop::Memory) => return Err(Stop::Memory),
        }
    }
    Err(Stop::Form { left: least })
}

pub(crate) fn lesser(a: usize, b: usize) -> usize
    ensures { result ≡ min a b }
{
    if a < b { a } else { b }
}
