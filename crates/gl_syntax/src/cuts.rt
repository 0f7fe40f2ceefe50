//! Bytes cut at a byte, and at each line feed.

ghost use Rattle.std.specs.Prelude.{◌≡◌, ◌==◌, ◌<◌, [], ◌∷◌, length, option_map, position, MatchOption, IfSome};
ghost use Rattle.spec_syntax.specs.Cuts.{cut, lines_in, IsFirstLine};

/// The bytes ahead of the first that is this one, and those after it.
#[tactic(auto, using(crate::proofs::LineCuts::cut_none, crate::proofs::LineCuts::cut_some))]
pub fn cut(bytes: &[u8], byte: u8) -> Option<(&[u8], &[u8])>
    ensures { option_map (λ parts. (parts.0.now, parts.1.now)) result ≡ cut byte bytes.now }
{
    match first_position(bytes, byte) {
        Some(offset) => Some((&bytes[..offset], &bytes[offset + 1..])),
        None => None,
    }
}

fn first_position(bytes: &[u8], byte: u8) -> Option<usize>
    ensures value { result ≡ position (λ b. b == byte) bytes.now }
    ensures within { IfSome result (λ offset. offset < length bytes.now) }
{
    bytes.iter().position(|b| *b == byte)
}

/// The first line without its line feed, and the lines after it.
#[tactic(auto, using(crate::proofs::LineCuts::lines_at, crate::proofs::LineCuts::lines_without, crate::proofs::LineCuts::cut_shorter, crate::proofs::LineCuts::first_cut, crate::proofs::LineCuts::first_last))]
pub fn next_line(bytes: &[u8]) -> Option<(&[u8], &[u8])>
    ensures lines { MatchOption result (lines_in bytes.now ≡ [])
        (λ parts. lines_in bytes.now ≡ parts.0.now ∷ lines_in parts.1.now) }
    ensures first { IfSome result (λ parts. IsFirstLine bytes.now parts.0.now parts.1.now) }
    ensures shorter { IfSome result (λ parts. length parts.1.now < length bytes.now) }
{
    if bytes.is_empty() {
        return None;
    }
    let Some((line, rest)) = cut(bytes, b'\n') else {
        return Some((bytes, &[]));
    };
    Some((line, rest))
}
