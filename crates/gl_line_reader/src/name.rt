//! Names.

ghost use Rattle.std.specs.Prelude.{◌≡◌, MatchResult, IsTrue};
ghost use Rattle.spec_syntax.specs.Reader.{first_is};
ghost use Rattle.spec_syntax.specs.Name.{named, unnamed, read_name};
ghost use Rattle.spec_value.specs.Name.{is_lower, is_name_byte, is_name};
ghost use Rattle.gl_syntax.specs.Stop.{Reads};

use gl_syntax::{Stop, text_of};
use gl_value::Name;
use std::alloc::Global;

/// The name and the bytes after it. It takes memory for the name.
#[tactic(auto, using(crate::proofs::Names::no_name, crate::proofs::Names::may_stops, crate::proofs::Names::name_found, crate::proofs::Names::name_is))]
pub(crate) fn name_ahead(alloc: Global, bytes: &[u8]) -> Result<(Name, &[u8]), Stop>
    ensures { Reads result (read_name bytes.now) }
{
    if !begins_name(bytes) {
        return Err(Stop::Form { left: bytes.len() });
    }
    let (spelling, rest) = cut(32, bytes);
    if spelling == b"may".as_slice() {
        return Err(Stop::Form { left: rest.len() });
    }
    let name = name_of(alloc, spelling)?;
    Ok((name, rest))
}

#[tactic(auto, using(crate::proofs::Names::name_utf8))]
fn name_of(alloc: Global, spelling: &[u8]) -> Result<Name, Stop>
    requires { IsTrue (is_name spelling.now) }
    ensures { MatchResult result (λ name. name ≡ spelling.now) (λ stop. stop ≡ Stop.Memory) }
{
    let text = text_of(alloc, spelling)?;
    match Name::new(text) {
        Ok(name) => Ok(name),
        Err(_) => unreachable!(),
    }
}

// The bytes, at most so many, that may stand in a name, and those after them.
#[tactic(auto, using(crate::proofs::Names::cut_prefix, crate::proofs::Names::cut_rest, crate::proofs::Names::cut_le))]
fn cut(most: usize, bytes: &[u8]) -> (&[u8], &[u8])
    ensures prefix { named most bytes.now ≡ result.0.now }
    ensures rest { unnamed most bytes.now ≡ result.1.now }
{
    let after_word = after_name(most, bytes);
    bytes.split_at(bytes.len() - after_word.len())
}

#[tactic(auto, using(crate::proofs::Names::unnamed_none, crate::proofs::Names::unnamed_other, crate::proofs::Names::unnamed_more, crate::proofs::Names::first_some))]
fn after_name(most: usize, bytes: &[u8]) -> &[u8]
    ensures { result.now ≡ unnamed most bytes.now }
{
    let mut rest = bytes;
    let mut more = most;
    'bytes: while more > 0 && stands_in_name(rest) {
        rest = &rest[1..];
        more -= 1;
    }
    rest
}

fn begins_name(bytes: &[u8]) -> bool
    ensures { result ≡ first_is is_lower bytes.now }
{
    matches!(bytes, [b'a'..=b'z', ..])
}

// Whether the first byte may stand in a name after the first letter.
fn stands_in_name(bytes: &[u8]) -> bool
    ensures { result ≡ first_is is_name_byte bytes.now }
{
    matches!(bytes, [b'a'..=b'z' | b'0'..=b'9' | b'_', ..])
}
