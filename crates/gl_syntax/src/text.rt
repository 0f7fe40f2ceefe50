//! Texts at the beginning of bytes.

ghost use Rattle.std.specs.Prelude.{◌≡◌, ◌++◌, ◌<◌, ◌≤◌, take, drop, length, MatchResult, IfOk, IsTrue, IsUtf8};
ghost use Rattle.spec_syntax.specs.Reader.{found, made, first_is};
ghost use Rattle.spec_syntax.specs.Text.{after_lead, is_lead, is_hex, hex_value};
ghost use Rattle.spec_syntax.specs.ValueReader.{begins_char, read_continued, read_plain, read_escape};
ghost use Rattle.spec_syntax.specs.ValueReader.{read_hex_byte, read_char, read_chars, read_text};
ghost use Rattle.gl_syntax.specs.Stop.{IsStop, Reads};

use crate::stop::{Stop, word};
use gl_value::{Bytes, Text, TextFault};
use std::alloc::Global;

/// The text and the bytes after it. It takes memory for the text, and for its bytes while they are read.
#[tactic(auto, using(spec_syntax::proofs::Enclosed::text_found, spec_syntax::proofs::Enclosed::text_stops, spec_syntax::proofs::Enclosed::text_stops_inside, spec_syntax::proofs::Enclosed::text_stops_last, spec_syntax::proofs::Utf8::text_is_utf8,))]
pub fn text_ahead(alloc: Global, bytes: &[u8]) -> Result<(Text, &[u8]), Stop>
    ensures { Reads result (read_text bytes.now) }
{
    let inside = word(b"\"", bytes)?;
    let (chars, rest) = chars_ahead(alloc, inside)?;
    let after_word = word(b"\"", rest)?;
    let text = text_of(alloc, chars.as_slice())?;
    Ok((text, after_word))
}

/// The text of these bytes. It takes memory for the text.
pub fn text_of(alloc: Global, bytes: &[u8]) -> Result<Text, Stop>
    requires { IsUtf8 bytes.now }
    ensures { MatchResult result (λ text. text ≡ bytes.now) (λ stop. stop ≡ Stop.Memory) }
{
    match Text::from_utf8(alloc, bytes) {
        Ok(text) => Ok(text),
        Err(TextFault::Memory) => Err(Stop::Memory),
        Err(TextFault::NotUtf8 { .. }) => unreachable!(),
    }
}

// The bytes that the characters ahead stand for, and the bytes after them.
fn chars_ahead(alloc: Global, bytes: &[u8]) -> Result<(Bytes, &[u8]), Stop>
    ensures { MatchResult result (λ x. read_chars bytes.now ≡ found x.0 x.1.now)
        (IsStop (read_chars bytes.now)) }
{
    let mut chars = Bytes::new(alloc);
    let mut rest = bytes;
    'chars: while begins_char(rest) {
        rest = add_char(rest, &mut chars)?;
    }
    Ok((chars, rest))
}

// Whether a character begins here.
fn begins_char(bytes: &[u8]) -> bool
    ensures { result ≡ first_is begins_char bytes.now }
{
    match bytes {
        [b'\\', ..] => true,
        [first, ..] => is_lead(*first),
        [] => false,
    }
}

// Adds the bytes that the character ahead stands for; the bytes after it are left.
fn add_char<'a>(bytes: &'a [u8], chars: &mut Bytes) -> Result<&'a [u8], Stop>
    ensures read { MatchResult result
        (λ rest. made (λ char. chars.old ++ char) (read_char bytes.now) ≡ found chars.new rest.now)
        (IsStop (read_char bytes.now)) }
    ensures shorter { IfOk result (λ rest. length rest.now < length bytes.now) }
{
    if let [b'\\', after_word @ ..] = bytes {
        let (byte, rest) = escape_ahead(after_word)?;
        chars.push_all(&[byte])?;
        return Ok(rest);
    }
    let (char, rest) = plain_ahead(bytes)?;
    chars.push_all(char)?;
    Ok(rest)
}

// The byte that is escaped, after the backslash, and the bytes after it.
fn escape_ahead(bytes: &[u8]) -> Result<(u8, &[u8]), Stop>
    ensures read { Reads result (read_escape bytes.now) }
    ensures shorter { IfOk result (λ x. length x.1.now < length bytes.now) }
{
    match bytes {
        [b'x', digits @ ..] => hex_byte_ahead(digits),
        [b'n', rest @ ..] => Ok((b'\n', rest)),
        [b't', rest @ ..] => Ok((b'\t', rest)),
        [byte @ (b'"' | b'\\'), rest @ ..] => Ok((*byte, rest)),
        _ => Err(Stop::Form { left: bytes.len() }),
    }
}

// The byte of two hexadecimal digits, and the bytes after them.
fn hex_byte_ahead(bytes: &[u8]) -> Result<(u8, &[u8]), Stop>
    ensures read { Reads result (read_hex_byte bytes.now) }
    ensures shorter { IfOk result (λ x. length x.1.now < length bytes.now) }
{
    match bytes {
        [b'0', digit @ (b'0'..=b'8' | b'b'..=b'f'), rest @ ..] => Ok((hex_value(*digit), rest)),
        [b'1', digit @ (b'0'..=b'9' | b'a'..=b'f'), rest @ ..] => Ok((
            16 + hex_value(*digit),
            rest,
        )),
        [b'0' | b'1', rest @ ..] => Err(Stop::Form { left: rest.len() }),
        _ => Err(Stop::Form { left: bytes.len() }),
    }
}

fn hex_value(digit: u8) -> u8
    requires { IsTrue (is_hex digit) }
    ensures { result ≡ hex_value digit }
{
    if digit <= b'9' {
        digit - b'0'
    } else {
        digit - 87
    }
}

// The bytes of the character ahead, which stands as it is, and the bytes after it.
fn plain_ahead(bytes: &[u8]) -> Result<(&[u8], &[u8]), Stop>
    ensures read { MatchResult result (λ x. read_plain bytes.now ≡ found x.0.now x.1.now)
        (IsStop (read_plain bytes.now)) }
    ensures shorter { IfOk result (λ x. length x.1.now < length bytes.now) }
{
    match bytes {
        [first, others @ ..] if is_lead(*first) => {
            let ranges = after_lead(*first);
            continued(ranges, others)?;
            Ok(bytes.split_at(ranges.len() + 1))
        }
        _ => Err(Stop::Form { left: bytes.len() }),
    }
}

// Whether a character that stands as it is begins with the byte.
fn is_lead(byte: u8) -> bool
    ensures { result ≡ is_lead byte }
{
    matches!(byte, 32..=33 | 35..=91 | 93..=127 | 194..=244)
}

// The ranges of the bytes after the first one of a character.
fn after_lead(first: u8) -> &'static [(u8, u8)]
    ensures { result.now ≡ after_lead first }
{
    match first {
        0..=127 => &[],
        128..=223 => &[(128, 191)],
        224 => &[(160, 191), (128, 191)],
        237 => &[(128, 159), (128, 191)],
        225..=239 => &[(128, 191), (128, 191)],
        240 => &[(144, 191), (128, 191), (128, 191)],
        244 => &[(128, 143), (128, 191), (128, 191)],
        _ => &[(128, 191), (128, 191), (128, 191)],
    }
}

// Whether the bytes begin with one of each range.
#[tactic(auto, using(crate::proofs::Chars::continued_past, crate::proofs::Chars::continued_out))]
fn continued(ranges: &[(u8, u8)], bytes: &[u8]) -> Result<(), Stop>
    ensures read { let n = length ranges.now in
        MatchResult result (λ _. read_continued ranges.now bytes.now ≡ found (take n bytes.now) (drop n bytes.now))
        (IsStop (read_continued ranges.now bytes.now)) }
    ensures within { IfOk result (λ _. length ranges.now ≤ length bytes.now) }
{
    for (offset, range) in ranges.iter().enumerate() {
        let Some(byte) = bytes.get(offset) else {
            return Err(Stop::Form { left: 0 });
        };
        if *byte < range.0 || range.1 < *byte {
            return Err(Stop::Form {
                left: bytes.len() - offset,
            });
        }
    }
    Ok(())
}
