//! A text: UTF-8 that is never changed, so its copies can share it.

ghost use Rattle.std.specs.Prelude.{◌≡◌, IfOk, IsUtf8, MatchResult};
ghost use Rattle.std.specs.Arc.{arc_value};
ghost use Rattle.std.specs.String.{string_bytes};
ghost use Rattle.gl_value.specs.Fault.{IsTextOf, IsFaultOf};

use std::alloc::{AllocError, Global};
use std::marker::Model;
use std::sync::Arc;
use thiserror::Error;

/// A text of UTF-8, in as many bytes as it has, shared by its copies.
#[derive(Drop)]
pub struct Text {
    string: Arc<String>,
}

impl Model for Text {
    ghost use Rattle.std.specs.Prelude.{ℕ, List};
    ghost use Rattle.std.specs.String.{string_bytes};

    ghost Value = { List ℕ };

    ghost view = { λ t. string_bytes t.string.value };
}

/// Why bytes make no text.
#[derive(Debug, Drop, Error)]
pub enum TextFault {
    /// The bytes aren't UTF-8: the first `valid` of them are whole characters, and no character begins there.
    #[error("no UTF-8 after the first {valid} bytes")]
    NotUtf8 { valid: usize },
    /// There was no memory for the text.
    #[error("out of memory")]
    Memory,
}

impl Text {
    /// The text of these bytes, which are copied. It takes memory for them, in one block beside that of the count.
    pub fn from_utf8(alloc: Global, bytes: &[u8]) -> Result<Text, TextFault>
        ensures { MatchResult result (IsTextOf bytes.now) (IsFaultOf bytes.now) }
    {
        match str::from_utf8(bytes) {
            Ok(text) => match shared(alloc, text) {
                Ok(string) => Ok(Text { string }),
                Err(_) => Err(TextFault::Memory),
            },
            Err(fault) => Err(TextFault::NotUtf8 {
                valid: fault.valid_up_to(),
            }),
        }
    }

    /// The bytes of the text, which are UTF-8.
    pub fn bytes(&self) -> &[u8]
        ensures value { result.now ≡ self.now }
        ensures utf8 { IsUtf8 result.now }
    {
        self.string.as_str().as_bytes()
    }

    /// The same text, which costs one step: both share its bytes.
    pub fn copy(&self) -> Result<Text, AllocError>
        ensures { IfOk result (λ t. t ≡ self.now) }
    {
        let string = Arc::try_clone(&self.string)?;
        Ok(Text { string })
    }
}

fn shared(alloc: Global, text: &str) -> Result<Arc<String>, AllocError>
    ensures { IfOk result (λ s. string_bytes (arc_value s) ≡ text.now) }
{
    let string = String::from_str(alloc, text)?;
    Ok(Arc::new(alloc, string)?)
}
