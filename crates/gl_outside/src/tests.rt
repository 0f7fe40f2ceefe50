ghost use Rattle.std.specs.Prelude.{◌<◌};

use super::{Calls, Given, MemorySink, MemorySource, Sink, Source, Taken};
use gl_value::Bytes;
use std::alloc::{AllocError, Global};
use std::test::Fail;

fn source(
    alloc: Global,
    bytes: &[u8],
    step: usize,
    failing: &[u64],
) -> Result<MemorySource, AllocError>
    requires { 0 < step }
{
    let mut all = Bytes::new(alloc);
    all.push_all(bytes)?;
    let mut calls = Calls::new(alloc);
    for call in failing {
        calls.push(*call)?;
    }
    Ok(MemorySource::new(all, step, calls))
}

// What the calls of a source answer, one after another, each into so much room.
#[derive(Drop)]
struct Takes {
    bytes: &'static [u8],
    step: usize,
    failing: &'static [u64],
    room: usize,
    answers: &'static [Taken],
}

#[test]
fn a_source_gives_its_bytes_in_steps_and_fails_where_told(rt: HostRuntime) -> Result<(), Fail> {
    let rows = [
        Takes {
            bytes: b"abcdefg",
            step: 3,
            failing: &[],
            room: 4,
            answers: &[
                Taken::Some(3),
                Taken::Some(3),
                Taken::Some(1),
                Taken::End,
                Taken::End,
            ],
        },
        Takes {
            bytes: b"abcdefg",
            step: 5,
            failing: &[1, 1],
            room: 4,
            answers: &[Taken::Some(4), Taken::Failed, Taken::Some(3), Taken::End],
        },
        Takes {
            bytes: b"ab",
            step: 1,
            failing: &[3, 0],
            room: 8,
            answers: &[
                Taken::Failed,
                Taken::Some(1),
                Taken::Some(1),
                Taken::Failed,
                Taken::End,
            ],
        },
        Takes {
            bytes: b"",
            step: 7,
            failing: &[2],
            room: 1,
            answers: &[Taken::End, Taken::End, Taken::Failed, Taken::End],
        },
    ];
    for row in &rows {
        assert!(rt; 0 < row.step && 0 < row.room && row.room <= 8);
        let mut source = source(rt.alloc(), row.bytes, row.step, row.failing)?;
        let mut got = Bytes::new(rt.alloc());
        for answer in row.answers {
            let mut room = [0u8; 8];
            let taken = source.take(&mut room[..row.room]);
            assert_eq!(rt; taken, *answer);
            if let Taken::Some(count) = taken {
                assert!(rt; count <= 8);
                got.push_all(&room[..count])?;
            }
        }
        assert_eq!(rt; got.as_slice(), row.bytes);
    }
    Ok(())
}

// What a sink of so much room answers to pieces, one after another, and what it has then.
#[derive(Drop)]
struct Gives {
    room: usize,
    pieces: &'static [&'static [u8]],
    answers: &'static [Given],
    bytes: &'static [u8],
}

#[test]
fn a_sink_takes_what_its_room_holds(rt: HostRuntime) -> Result<(), Fail> {
    let rows = [
        Gives {
            room: 10,
            pieces: &[b"order w0\nat 0 w0\nreply 0 ok\n"],
            answers: &[Given::Failed],
            bytes: b"order w0\na",
        },
        Gives {
            room: 3,
            pieces: &[b"ab", b"cd", b"", b"e"],
            answers: &[Given::All, Given::Failed, Given::All, Given::Failed],
            bytes: b"abc",
        },
        Gives {
            room: 0,
            pieces: &[b"", b"a"],
            answers: &[Given::All, Given::Failed],
            bytes: b"",
        },
        Gives {
            room: 4,
            pieces: &[b"ab", b"cd"],
            answers: &[Given::All, Given::All],
            bytes: b"abcd",
        },
    ];
    for row in &rows {
        let mut sink = MemorySink::new(rt.alloc(), row.room)?;
        for (piece, answer) in row.pieces.iter().zip(row.answers) {
            assert_eq!(rt; sink.give(piece), *answer);
        }
        assert_eq!(rt; sink.bytes(), row.bytes);
    }
    Ok(())
}
