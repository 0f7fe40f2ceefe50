//! Names of lists and listeners.

ghost use Rattle.std.specs.Prelude.{◌≡◌, ◌↔◌, List, ℕ, IsTrue, IsOk, IfOk, IfErr};
ghost use Rattle.std.specs.List.{list_all};
ghost use Rattle.spec_value.specs.Name.{is_name, is_name_byte, is_lower};

use crate::text::Text;
use std::alloc::AllocError;
use std::marker::Model;

/// A name of a list or a listener: a lower-case letter, then at most 31 lower-case letters, digits
/// or underscores, and not `may`.
#[derive(Drop)]
pub struct Name {
    text: Text,
}

impl Model for Name {
    ghost use Rattle.std.specs.Prelude.{List, ℕ, IsTrue};
    ghost use Rattle.spec_value.specs.Name.{is_name};

    ghost Value = { List ℕ };

    ghost view = { λ n. n.text };

    ghost invariant = { λ n. IsTrue (is_name n.text) };
}

impl Name {
    /// The name that the text is. A text that is no name is handed back. It takes no memory.
    pub fn new(text: Text) -> Result<Name, Text>
        ensures form { IsOk result ↔ IsTrue (is_name text) }
        ensures name { IfOk result (λ n. n ≡ text) }
        ensures err { IfErr result (λ t. t ≡ text) }
    {
        if spells_name(text.bytes()) {
            Ok(Name { text })
        } else {
            Err(text)
        }
    }

    /// The name's text.
    pub fn text(&self) -> &Text
        ensures value { result.now ≡ self.now }
        ensures form { IsTrue (is_name self.now) }
    {
        &self.text
    }

    /// The same name. Both share their text, so this takes one step and no memory.
    pub fn copy(&self) -> Result<Name, AllocError>
        ensures { IfOk result (λ name. name ≡ self.now) }
    {
        let text = self.text.copy()?;
        Ok(Name { text })
    }
}

/// Whether the bytes are a name. It looks at each of them at most twice.
pub fn spells_name(bytes: &[u8]) -> bool
    ensures { result ≡ is_name bytes.now }
{
    match bytes {
        [] => false,
        [first, others @ ..] => {
            begins_name(*first)
                && all_stand_in_name(others)
                && others.len() <= 31
                && bytes != b"may".as_slice()
        }
    }
}

fn begins_name(byte: u8) -> bool
    ensures { result ≡ is_lower byte }
{
    matches!(byte, b'a'..=b'z')
}

// Whether the bytes may stand in a name after its first letter.
fn all_stand_in_name(bytes: &[u8]) -> bool
    ensures { result ≡ list_all is_name_byte bytes.now }
{
    bytes.iter().all(|byte| stands_in_name(*byte))
}

fn stands_in_name(byte: u8) -> bool
    ensures { result ≡ is_name_byte byte }
{
    matches!(byte, b'a'..=b'z' | b'0'..=b'9' | b'_')
}
