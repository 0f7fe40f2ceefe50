//! Where readers stop, and the readers of words and of single bytes.

ghost use Rattle.std.specs.Prelude.{◌≡◌, MatchResult};
ghost use Rattle.spec_syntax.specs.Reader.{found, first_is, read_word};
ghost use Rattle.spec_syntax.specs.ValueReader.{is};
ghost use Rattle.gl_syntax.specs.Stop.{IsStop};

use std::alloc::AllocError;
use thiserror::Error;

/// Why bytes were not read.
#[derive(Clone, Copy, Debug, PartialEq, Eq, Drop, Error)]
pub enum ReadFault {
    /// The bytes are none of the grammar. The column, from 1 on, is that of the first byte that nothing of the grammar
    /// has there: one more than the length of the longest front that begins something of the grammar.
    #[error("not of the form at column {column}")]
    Form { column: u64 },
    /// There was no memory for what the bytes spell.
    #[error("out of memory")]
    Memory,
}

/// Why a reader went no further.
#[derive(Clone, Copy)]
pub enum Stop {
    /// What it reads can't go on with the bytes that are left, which are so many.
    Form { left: usize },
    /// There was no memory.
    Memory,
}

impl From<AllocError> for Stop {
    ghost use Rattle.std.specs.Prelude.{◌≡◌};
    ghost use Rattle.gl_syntax.specs.declared.stop.Stop.TheVariants.{Memory};

    ghost from_gives = { λ _ stop. stop ≡ Memory };

    fn from(_failed: AllocError) -> Stop {
        Stop::Memory
    }
}

/// What is after the word, with which the bytes must begin.
#[tactic(auto, using(crate::proofs::Words::word_past))]
pub fn word<'a>(word: &[u8], bytes: &'a [u8]) -> Result<&'a [u8], Stop>
    ensures { MatchResult result (λ rest. read_word word.now bytes.now ≡ found tt rest.now)
        (IsStop (read_word word.now bytes.now)) }
{
    let mut rest = bytes;
    for sign in word {
        let [first, others @ ..] = rest else {
            return Err(Stop::Form { left: 0 });
        };
        if *first != *sign {
            return Err(Stop::Form { left: rest.len() });
        }
        rest = others;
    }
    Ok(rest)
}

/// Whether the first byte is this one.
pub fn begins_with(byte: u8, bytes: &[u8]) -> bool
    ensures { result ≡ first_is (is byte) bytes.now }
{
    match bytes {
        [first, ..] => *first == byte,
        [] => false,
    }
}
