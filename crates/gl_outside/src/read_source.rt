ghost use Rattle.std.specs.Prelude.{◌≡◌, ◌<◌, length, IfSome};
ghost use Rattle.std.specs.Io.KnownBytes.{Consumes};
ghost use Rattle.gl_outside.specs.Faults.{Rose, GoesOn};
ghost use Rattle.gl_outside.specs.Source.{taken_bytes, FitsRoom, EndsExactly, faults_after_take};
ghost use Rattle.gl_outside.specs.ReadSource.{source_reader, reader_faults};

use crate::source::{Source, Taken};
use std::io::Read;

/// A source over a reader of std. It tells what its reader tells: the bytes of one in memory, and
/// nothing of a file or a terminal.
#[derive(Drop)]
pub struct ReadSource<R> {
    reader: R,
    faults: u64,
}

impl<R: Read> ReadSource<R> {
    /// Gives what the reader reads. Each error of the reader is a fault, an interrupted read too;
    /// their count stops at the highest number of 64 bits.
    pub fn new(reader: R) -> ReadSource<R>
        ensures reader { source_reader result ≡ reader }
        ensures faults { reader_faults result ≡ 0 }
    {
        ReadSource { reader, faults: 0 }
    }
}

impl<R: Read> Source for ReadSource<R> {
    ghost remaining = { λ s. R.remaining s.reader };

    ghost faults = { λ s. s.faults };

    fn take(&mut self, room: &mut [u8]) -> Taken
        requires { 0 < length room.old }

        // What every source promises.
        ensures fits { FitsRoom result room.new }
        ensures bytes { Consumes (R.remaining (source_reader self.old))
            (R.remaining (source_reader self.new)) (taken_bytes result room.new) }
        ensures end { IfSome (R.remaining (source_reader self.old)) (EndsExactly result) }
        ensures cause { result ≡ Taken.Failed
            → Rose (reader_faults self.old) (reader_faults self.new) }
        ensures count { GoesOn (reader_faults self.old) (reader_faults self.new) }

        // What this one promises besides.
        ensures counted { reader_faults self.new
            ≡ faults_after_take (reader_faults self.old) result }
    {
        match self.reader.read(room) {
            Ok(0) => Taken::End,
            Ok(count) => Taken::Some(count),
            Err(_) => {
                self.faults = self.faults.saturating_add(1);
                Taken::Failed
            }
        }
    }
}

#[cfg(test)]
mod tests {
    use super::*;
    use std::io;
    use std::test::Fail;

    // Reads one byte at a time, and fails once before the byte at `cut`.
    #[derive(Drop)]
    struct Flaky {
        text: &'static [u8],
        at: usize,
        cut: Option<usize>,
    }

    impl Read for Flaky {
        fn read(&mut self, buf: &mut [u8]) -> io::Result<usize> {
            if self.cut == Some(self.at) {
                self.cut = None;
                return Err(io::Error::from(io::ErrorKind::Interrupted));
            }
            match (self.text.get(self.at), buf.first_mut()) {
                (Some(byte), Some(position)) => {
                    *position = *byte;
                    self.at = self.at.saturating_add(1);
                    Ok(1)
                }
                _ => Ok(0),
            }
        }
    }

    #[test]
    fn gives_what_the_reader_reads_and_counts_its_errors(rt: HostRuntime) {
        let mut room = [0u8; 4];
        let mut source = ReadSource::new(b"abcdef".as_slice());
        assert_eq!(rt; source.take(&mut room), Taken::Some(4));
        assert_eq!(rt; room.as_slice(), b"abcd".as_slice());
        assert_eq!(rt; source.take(&mut room), Taken::Some(2));
        assert_eq!(rt; room[..2], b"ef"[..]);
        assert_eq!(rt; source.take(&mut room), Taken::End);
        assert_eq!(rt; source.faults, 0);

        let mut source = ReadSource::new(Flaky {
            text: b"ab",
            at: 0,
            cut: Some(1),
        });
        let answers = [Taken::Some(1), Taken::Failed, Taken::Some(1), Taken::End];
        for answer in answers {
            assert_eq!(rt; source.take(&mut room), answer);
        }
        assert_eq!(rt; source.faults, 1);
    }
}
