//! Numbers in decimal, each in its one spelling. They are read by std, which takes other spellings too, and then
//! written again.

ghost use Rattle.std.specs.Prelude.{◌≡◌};
ghost use Rattle.gl_syntax.specs.Numbers.{number_in, if_spelled, index_in, if_index};

use itoa::Buffer;

/// The number that the bytes spell.
#[tactic(auto, using(crate::proofs::Numbers::number_of_no_text))]
pub fn decimal_number(bytes: &[u8]) -> Option<i64>
    ensures { result ≡ number_in bytes.now }
{
    match str::from_utf8(bytes) {
        Ok(text) => parsed_number(text),
        Err(_) => None,
    }
}

#[tactic(auto, using(crate::proofs::Numbers::number_parsed, crate::proofs::Numbers::number_not_parsed))]
fn parsed_number(text: &str) -> Option<i64>
    ensures { result ≡ number_in text.now }
{
    match text.parse() {
        Ok(number) => if_spelled(number, text.as_bytes()),
        Err(_) => None,
    }
}

#[tactic(auto, using(crate::proofs::Numbers::fits_64_from))]
fn if_spelled(number: i64, bytes: &[u8]) -> Option<i64>
    ensures { result ≡ if_spelled bytes.now number }
{
    let mut buffer = Buffer::new();
    if buffer.format(number).as_bytes() == bytes {
        Some(number)
    } else {
        None
    }
}

/// The index that the bytes spell.
#[tactic(auto, using(crate::proofs::Numbers::index_of_no_text))]
pub fn decimal_index(bytes: &[u8]) -> Option<u32>
    ensures { result ≡ index_in bytes.now }
{
    match str::from_utf8(bytes) {
        Ok(text) => parsed_index(text),
        Err(_) => None,
    }
}

#[tactic(auto, using(crate::proofs::Numbers::index_parsed, crate::proofs::Numbers::index_not_parsed))]
fn parsed_index(text: &str) -> Option<u32>
    ensures { result ≡ index_in text.now }
{
    match text.parse() {
        Ok(index) => if_index(index, text.as_bytes()),
        Err(_) => None,
    }
}

fn if_index(index: u32, bytes: &[u8]) -> Option<u32>
    ensures { result ≡ if_index bytes.now index }
{
    let mut buffer = Buffer::new();
    if buffer.format(index).as_bytes() == bytes {
        Some(index)
    } else {
        None
    }
}
