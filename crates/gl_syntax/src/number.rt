//! Numbers at the beginning of bytes. A number never leaves its range: it ends before the digit with which it would.

ghost use Rattle.std.specs.Prelude.{◌≡◌, ◌≤◌, ◌<◌, IfOk};
ghost use Rattle.spec_syntax.specs.Reader.{found};
ghost use Rattle.spec_syntax.specs.ValueReader.{read_longer, read_positive, read_natural, read_number};
ghost use Rattle.gl_syntax.specs.Stop.{Reads};

use crate::stop::Stop;

/// The number and the bytes after it.
pub fn number_ahead(bytes: &[u8]) -> Result<(i64, &[u8]), Stop>
    ensures { Reads result (read_number bytes.now) }
{
    if let [b'-', digits @ ..] = bytes {
        let (size, rest) = positive_ahead(1 << 63, digits)?;
        return Ok((0i64.wrapping_sub_unsigned(size), rest));
    }
    let (size, rest) = natural_ahead(i64::MAX as u64, bytes)?;
    Ok((size as i64, rest))
}

/// The number from 0 to `top`, and the bytes after it.
pub fn natural_ahead(top: u64, bytes: &[u8]) -> Result<(u64, &[u8]), Stop>
    requires { 9 ≤ top }
    ensures read { Reads result (read_natural top bytes.now) }
    ensures within { IfOk result (λ x. x.0 ≤ top) }
{
    match bytes {
        [b'0', rest @ ..] => Ok((0, rest)),
        _ => positive_ahead(top, bytes),
    }
}

/// The number from 1 to `top`, and the bytes after it.
pub fn positive_ahead(top: u64, bytes: &[u8]) -> Result<(u64, &[u8]), Stop>
    requires { 9 ≤ top }
    ensures read { Reads result (read_positive top bytes.now) }
    ensures some { IfOk result (λ x. 0 < x.0) }
    ensures within { IfOk result (λ x. x.0 ≤ top) }
{
    match bytes {
        [digit @ b'1'..=b'9', rest @ ..] => Ok(longer(top, u64::from(*digit - b'0'), rest)),
        _ => Err(Stop::Form { left: bytes.len() }),
    }
}

// The number with the digits after it, as many as leave it within `top`.
fn longer(top: u64, first: u64, bytes: &[u8]) -> (u64, &[u8])
    requires { first ≤ top }
    ensures read { read_longer top first bytes.now ≡ found result.0 result.1.now }
    ensures least { first ≤ result.0 }
    ensures within { result.0 ≤ top }
{
    let mut number = first;
    let mut rest = bytes;
    'digits: while let [digit @ b'0'..=b'9', others @ ..] = rest {
        let digit = u64::from(*digit - b'0');
        if digit > top || number > (top - digit) / 10 {
            break 'digits;
        }
        number = number * 10 + digit;
        rest = others;
    }
    (number, rest)
}
