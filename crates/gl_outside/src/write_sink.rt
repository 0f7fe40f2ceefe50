ghost use Rattle.std.specs.Prelude.{◌≡◌, ◌≢◌, [], Some, IfSome, IsTrue};
ghost use Rattle.std.specs.Io.KnownBytes.{Appends};
ghost use Rattle.gl_outside.specs.Faults.{Rose, GoesOn};
ghost use Rattle.gl_outside.specs.Sink.{AppendsPrefix, faults_after_give};
ghost use Rattle.gl_outside.specs.WriteSink.{sink_writer, writer_faults};

use crate::sink::{Given, Sink};
use std::io::Write;

/// A sink over a writer of std. It tells what its writer tells: the bytes of one in memory, and
/// nothing of a file or a terminal.
#[derive(Drop)]
pub struct WriteSink<W> {
    writer: W,
    faults: u64,
}

impl<W: Write> WriteSink<W> {
    /// Gives the writer what it is given. Each error of the writer is a fault, an interrupted
    /// write too, and so is a write that takes nothing; their count stops at the highest number
    /// of 64 bits.
    pub fn new(writer: W) -> WriteSink<W>
        ensures writer { sink_writer result ≡ writer }
        ensures faults { writer_faults result ≡ 0 }
    {
        WriteSink { writer, faults: 0 }
    }
}

impl<W: Write> Sink for WriteSink<W> {
    ghost contents = { λ s. W.contents s.writer };

    ghost faults = { λ s. s.faults };

    /// Writes until the whole piece is taken, and then flushes the writer.
    fn give(&mut self, piece: &[u8]) -> Given

        // What every sink promises.
        ensures all { result ≡ Given.All → Appends (W.contents (sink_writer self.old))
            (W.contents (sink_writer self.new)) piece.now }
        ensures part { AppendsPrefix (W.contents (sink_writer self.old))
            (W.contents (sink_writer self.new)) piece.now }
        ensures cause { result ≡ Given.Failed
            → Rose (writer_faults self.old) (writer_faults self.new) }
        ensures nothing { IfSome (W.contents (sink_writer self.old))
            (λ had. W.contents (sink_writer self.new) ≡ Some had → piece.now ≢ []
            → Rose (writer_faults self.old) (writer_faults self.new)) }
        ensures count { GoesOn (writer_faults self.old) (writer_faults self.new) }

        // What this one promises besides.
        ensures counted { writer_faults self.new
            ≡ faults_after_give (writer_faults self.old) result }
    {
        if write_whole(&mut self.writer, piece) {
            return Given::All;
        }
        self.faults = self.faults.saturating_add(1);
        Given::Failed
    }
}

// Writes the piece and flushes; whether all went well. It stops at the first error.
fn write_whole<W: Write>(writer: &mut W, piece: &[u8]) -> bool
    ensures all { IsTrue result
        → Appends (W.contents writer.old) (W.contents writer.new) piece.now }
    ensures part { AppendsPrefix (W.contents writer.old) (W.contents writer.new) piece.now }
{
    let mut rest = piece;
    while !rest.is_empty() {
        match writer.write(rest) {
            Ok(0) => return false,
            Ok(count) => rest = &rest[count..],
            Err(_) => return false,
        }
    }
    writer.flush().is_ok()
}

#[cfg(test)]
mod tests {
    use super::*;
    use std::io;
    use std::test::Fail;

    // Takes at most two bytes a call and `room` in all, then none; its flush fails where told.
    #[derive(Drop)]
    struct Choppy {
        got: Vec<u8>,
        room: usize,
        bad_flush: bool,
    }

    impl Write for Choppy {
        fn write(&mut self, buf: &[u8]) -> io::Result<usize> {
            let free = self.room.saturating_sub(self.got.len());
            let count = buf.len().min(free).min(2);
            self.got.extend_from_slice(&buf[..count])?;
            Ok(count)
        }

        fn flush(&mut self) -> io::Result<()> {
            if self.bad_flush {
                return Err(io::Error::from(io::ErrorKind::BrokenPipe));
            }
            Ok(())
        }
    }

    #[test]
    fn writes_the_whole_piece_or_counts_a_fault(rt: HostRuntime) -> Result<(), Fail> {
        let rows = [
            (5, false, Given::All, b"abcde".as_slice()),
            (3, false, Given::Failed, b"abc".as_slice()),
            (0, false, Given::Failed, b"".as_slice()),
            (9, true, Given::Failed, b"abcde".as_slice()),
        ];
        for (room, bad_flush, answer, bytes) in rows {
            let mut sink = WriteSink::new(Choppy {
                got: Vec::new(rt.alloc()),
                room,
                bad_flush,
            });
            assert_eq!(rt; sink.give(b"abcde"), answer);
            assert_eq!(rt; sink.writer.got.as_slice(), bytes);
            assert_eq!(rt; sink.faults, u64::from(answer == Given::Failed));
        }
        Ok(())
    }
}
