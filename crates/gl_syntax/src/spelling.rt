//! Values, each in its one spelling.

ghost use Rattle.std.specs.Prelude.{◌≡◌, ◌++◌, ◌<◌, decimal, OnOk, OnErr};
ghost use Rattle.std.specs.Fmt.{signed_decimal};
ghost use Rattle.spec_syntax.specs.ValueText.{hex_digit as hex_digit_of, spelled_byte, spelled_value, spelled_list};
ghost use Rattle.spec_value.specs.Tree.{trees};
ghost use Rattle.spec_syntax.specs.Language.{Spell};
ghost use Rattle.spec_syntax.specs.Value.{any_value};
ghost use Rattle.spec_syntax.specs.Proper.{IsProper, AreProper};
ghost use Rattle.gl_syntax.specs.Elements.{comma_before, spelled_text};

use gl_value::{Bytes, Memory, Value, ValueShape};
use itoa::Buffer;
use std::alloc::Global;

/// Adds the value in its one spelling; where memory runs out the bytes are as before. It takes memory for the spelling
/// beside them while it writes, and recurses once a level of nesting. What is added reads back as the value.
#[tactic(auto, using(spec_syntax::proofs::Spelled::reads_back))]
pub fn write_value(alloc: Global, value: &Value, out: &mut Bytes) -> Result<(), Memory>
    ensures ok { OnOk result (out.new ≡ out.old ++ spelled_value value.now) }
    ensures back { OnOk result (Spell any_value (spelled_value value.now) value.now) }
    ensures err { OnErr result (out.new ≡ out.old) }
{
    let mut text = Bytes::new(alloc);
    add_value(value, &mut text)?;
    out.push_all(text.as_slice())
}

/// Adds a value: a number in decimal, a text in quotes, a list in brackets. It recurses once a level of nesting. Where
/// memory runs out part of it may be added.
#[cycle(value)]
pub fn add_value(value: &Value, out: &mut Bytes) -> Result<(), Memory>
    ensures value { OnOk result (out.new ≡ out.old ++ spelled_value value.now) }
    ensures proper { OnOk result (IsProper value.now) }
{
    match value.shape() {
        ValueShape::Num(n) => add_signed(n, out),
        ValueShape::Text(text) => add_text(text.bytes(), out),
        ValueShape::Items(values) => add_values(values, out),
    }
}

#[cycle(value)]
fn add_values(values: &[Value], out: &mut Bytes) -> Result<(), Memory>
    ensures value { OnOk result (out.new ≡ out.old ++ spelled_list values.now) }
    ensures proper { OnOk result (AreProper (trees values.now)) }
{
    out.push_all(b"[")?;
    for (offset, value) in values.iter().enumerate() {
        add_comma(offset, out)?;
        add_value(value, out)?;
    }
    out.push_all(b"]")
}

/// Adds the comma before an element, which the first one does without.
pub fn add_comma(offset: usize, out: &mut Bytes) -> Result<(), Memory>
    ensures { OnOk result (out.new ≡ out.old ++ comma_before offset) }
{
    if offset == 0 {
        return Ok(());
    }
    out.push_all(b",")
}

/// Adds a text in quotes, with what must be escaped.
pub(crate) fn add_text(bytes: &[u8], out: &mut Bytes) -> Result<(), Memory>
    ensures { OnOk result (out.new ≡ out.old ++ spelled_text bytes.now) }
{
    out.push_all(b"\"")?;
    for byte in bytes {
        add_byte(*byte, out)?;
    }
    out.push_all(b"\"")
}

// A byte of a text, escaped where it must be.
fn add_byte(byte: u8, out: &mut Bytes) -> Result<(), Memory>
    ensures { OnOk result (out.new ≡ out.old ++ spelled_byte byte) }
{
    match byte {
        b'"' => out.push_all(b"\\\""),
        b'\\' => out.push_all(b"\\\\"),
        b'\n' => out.push_all(b"\\n"),
        b'\t' => out.push_all(b"\\t"),
        0..32 => out.push_all(&[b'\\', b'x', hex_digit(byte / 16), hex_digit(byte % 16)]),
        _ => out.push_all(&[byte]),
    }
}

fn hex_digit(n: u8) -> u8
    requires { n < 16 }
    ensures { result ≡ hex_digit_of n }
{
    if n < 10 { n + b'0' } else { n + (b'a' - 10) }
}

/// Adds a number in decimal.
pub fn add_number(n: u64, out: &mut Bytes) -> Result<(), Memory>
    ensures { OnOk result (out.new ≡ out.old ++ decimal n) }
{
    let mut buffer = Buffer::new();
    out.push_all(buffer.format(n).as_bytes())
}

/// Adds a number with its sign, where it is below zero.
pub fn add_signed(n: i64, out: &mut Bytes) -> Result<(), Memory>
    ensures { OnOk result (out.new ≡ out.old ++ signed_decimal n) }
{
    let mut buffer = Buffer::new();
    out.push_all(buffer.format(n).as_bytes())
}
