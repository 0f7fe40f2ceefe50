//! A source read to its end.

ghost use Rattle.std.specs.Prelude.{◌≡◌, IsErrOf};
ghost use Rattle.gl_outside.specs.Faults.{Rose, GoesOn};
ghost use Rattle.gl_app.specs.Reading.{ReadsWhole};

use gl_outside::{Source, Taken};
use gl_syntax::Bytes;
use std::alloc::Global;

/// Why a source was not read whole.
#[derive(Clone, Copy, Debug, PartialEq, Eq)]
pub enum ReadAllFault {
    /// More bytes than the limit were taken.
    TooLarge,
    /// The source failed.
    Failed,
    Memory,
}

// How many bytes are asked for at a time.
const CHUNK: usize = 8192;

/// Reads all that the source has, up to `limit` bytes. It ends by `limit + 1` calls, and takes memory for the bytes.
pub fn read_all<S: Source>(
    alloc: Global,
    source: &mut S,
    limit: usize,
) -> Result<Bytes, ReadAllFault>
    ensures whole { ReadsWhole (S.remaining source.old) (S.remaining source.new) limit result }
    ensures failed { IsErrOf result ReadAllFault.Failed
        → Rose (S.faults source.old) (S.faults source.new) }
    ensures count { GoesOn (S.faults source.old) (S.faults source.new) }
    ensures sound { S.never_fails source.old
        → S.never_fails source.new × (S.faults source.new ≡ S.faults source.old) }
{
    let mut bytes = Bytes::new(alloc);
    let mut room = [0u8; CHUNK];
    'reading: loop {
        match source.take(&mut room) {
            Taken::End => return Ok(bytes),
            Taken::Some(0) => return Ok(bytes),
            Taken::Failed => return Err(ReadAllFault::Failed),
            Taken::Some(count) => {
                if count > limit - bytes.len() {
                    return Err(ReadAllFault::TooLarge);
                }
                if bytes.push_all(&room[..count]).is_err() {
                    return Err(ReadAllFault::Memory);
                }
            }
        }
    }
}
