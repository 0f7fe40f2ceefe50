ghost use Rattle.std.specs.Prelude.{◌≡◌, [], ◌++◌, length, OnOk, OnErr};

use std::alloc::{AllocError, Global};
use std::marker::Model;

/// Bytes of no particular form, such as a text that has not been read yet.
///
/// The bytes stand in one block of memory, which grows as they are added.
#[derive(Drop)]
pub struct Bytes {
    bytes: Vec<u8>,
}

impl Model for Bytes {
    ghost use Rattle.std.specs.Prelude.{ℕ, List};

    ghost Value = { List ℕ };

    ghost view = { λ b. b.bytes.items };
}

impl Bytes {
    /// No bytes. This takes no memory.
    pub fn new(alloc: Global) -> Bytes
        ensures { result ≡ [] }
    {
        Bytes {
            bytes: Vec::new(alloc),
        }
    }

    /// How many bytes there are.
    pub fn len(&self) -> usize
        ensures { result ≡ length self.now }
    {
        self.bytes.len()
    }

    /// All the bytes, in order.
    pub fn as_slice(&self) -> &[u8]
        ensures { result.now ≡ self.now }
    {
        self.bytes.as_slice()
    }

    /// Adds `more` at the end. The block is doubled where it is full, so adding costs a constant
    /// time a byte on average.
    pub fn push_all(&mut self, more: &[u8]) -> Result<(), AllocError>
        ensures ok { OnOk result (self.new ≡ self.old ++ more.now) }
        ensures err { OnErr result (self.new ≡ self.old) }
    {
        self.bytes.extend_from_slice(more)
    }
}

#[cfg(test)]
mod tests {
    use super::*;
    use std::test::Fail;

    fn crosses_threads<T: Send + Sync>(_value: &T) {}

    #[test]
    fn adds_at_the_end(rt: HostRuntime) -> Result<(), Fail> {
        let mut bytes = Bytes::new(rt.alloc());
        assert_eq!(rt; bytes.len(), 0);
        bytes.push_all(b"ab")?;
        bytes.push_all(b"")?;
        bytes.push_all(b"c")?;
        assert_eq!(rt; bytes.len(), 3);
        assert_eq!(rt; bytes.as_slice(), b"abc".as_slice());
        crosses_threads(&bytes);
        Ok(())
    }
}
