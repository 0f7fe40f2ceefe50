//! Whether words have the form of a request, judged without memory.

ghost use Rattle.std.specs.Prelude.{◌≡◌, [], ◌∷◌, is_some};
ghost use Rattle.gl_app.specs.Words.{pieces, actors_in, order_in, asked};

use crate::words::{read_actor, read_size};
use gl_syntax::{Text, cut};

/// Whether the words have the form of a request. It takes no memory.
pub fn have_form(words: &[Text]) -> bool
    ensures { result ≡ is_some (asked words.now) }
{
    match words {
        [keyword] => keyword.bytes() == b"check".as_slice(),
        [keyword, word] => have_pair_form(keyword.bytes(), word.bytes()),
        _ => false,
    }
}

fn have_pair_form(keyword: &[u8], word: &[u8]) -> bool
    ensures { result ≡ is_some (asked (keyword.now ∷ word.now ∷ [])) }
{
    if keyword == b"replay".as_slice() {
        spells_order(word)
    } else if keyword == b"big".as_slice() {
        read_size(word).is_some()
    } else {
        false
    }
}

// Whether the bytes spell an order.
fn spells_order(bytes: &[u8]) -> bool
    ensures { result ≡ is_some (order_in bytes.now) }
{
    bytes == b"-".as_slice() || spells_actors(bytes)
}

// Whether they spell actors between commas, of which there is one at least.
fn spells_actors(bytes: &[u8]) -> bool
    ensures { result ≡ is_some (actors_in (pieces bytes.now)) }
{
    let mut rest = bytes;
    'piece: while let Some((piece, others)) = cut(rest, b',') {
        let Some(_actor) = read_actor(piece) else {
            return false;
        };
        rest = others;
    }
    read_actor(rest).is_some()
}
