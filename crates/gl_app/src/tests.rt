use super::*;
use gl_outside::{Calls, MemorySink, MemorySource};
use gl_syntax::Bytes;
use std::alloc::Global;
use std::test::Fail;

const CHECK: &[&[u8]] = &[b"check"];

const REPLAY: &[&[u8]] = &[b"replay", b"w0"];

const PLAN: &[u8] = b"glaze 1\nsource s\nwriter\nsection\nadd s 5\n";

const WRITTEN: &[u8] = b"glaze 1\nlimit 16777216\nsource s\nwriter\nsection\nadd s 5\n";

const PROXY: &[u8] =
    b"glaze 1\nsource s\nproxy p s\nlisten a on p\nwriter\nsection\nadd s 1\nsection\nadd s 2\n";

const REPORT: &[u8] = b"order w0\nat 0 w0\nreply 0 ok\nlist s [5]\n";

// A call over the bytes, seven of them at a time, with a source that fails at these calls and a sink of that room.
fn call(
    alloc: Global,
    words: &[&[u8]],
    plan: &[u8],
    failing: Calls,
    room: usize,
) -> Result<(Status, MemorySink), Fail> {
    let mut texts = Vec::new(alloc);
    for word in words {
        texts.push(Text::from_utf8(alloc, word)?)?;
    }
    let mut bytes = Bytes::new(alloc);
    bytes.push_all(plan)?;
    let mut source = MemorySource::new(bytes, 7, failing);
    let mut sink = MemorySink::new(alloc, room)?;
    let status = plain(alloc, texts.as_slice(), &mut source, &mut sink);
    Ok((status, sink))
}

// Whether a call over the plan gives that text, where all goes well, and stops where a sink or a source fails.
fn stops_rightly(alloc: Global, words: &[&[u8]], text: &[u8]) -> Result<bool, Fail> {
    for room in 0..text.len() {
        let (status, sink) = call(alloc, words, PLAN, Calls::new(alloc), room)?;
        if status != Status::Write || Some(sink.bytes()) != text.get(..room) {
            return Ok(false);
        }
    }
    let (status, sink) = call(alloc, words, PLAN, Calls::new(alloc), text.len())?;
    if status != Status::Done || sink.bytes() != text {
        return Ok(false);
    }

    // The last call finds that no byte is left.
    let calls = PLAN.len().div_ceil(7) as u64 + 1;
    for failing in 0..calls {
        let mut numbers = Calls::new(alloc);
        numbers.push(failing)?;
        let (status, sink) = call(alloc, words, PLAN, numbers, text.len())?;
        if status != Status::Read || !sink.bytes().is_empty() {
            return Ok(false);
        }
    }
    let mut after = Calls::new(alloc);
    after.push(calls)?;
    let (status, _sink) = call(alloc, words, PLAN, after, text.len())?;
    Ok(status == Status::Done)
}

#[test]
fn a_check_stops_where_a_sink_or_a_source_fails(rt: HostRuntime) -> Result<(), Fail> {
    assert!(rt; stops_rightly(rt.alloc(), CHECK, WRITTEN)?);
    Ok(())
}

#[test]
fn a_replay_stops_where_a_sink_or_a_source_fails(rt: HostRuntime) -> Result<(), Fail> {
    assert!(rt; stops_rightly(rt.alloc(), REPLAY, REPORT)?);
    Ok(())
}

/// Bytes, and the status and the text to which their check comes.
const CHECKS: [(&[u8], Status, &[u8]); 6] = [
    (b"glaze 1", Status::Done, b"glaze 1\nlimit 16777216\n"),
    (
        b"glaze 1\nsource s\ncsv s\n01,-5,\"a,b\"\nend csv\n",
        Status::Done,
        b"glaze 1\nlimit 16777216\nsource s\nrow s [\"01\",-5,\"a,b\"]\n",
    ),
    (
        b"glaze 1\nlimit 1\nsource s\nrow s 1\nrow s 2\n",
        Status::Done,
        b"glaze 1\nlimit 1\nsource s\nrow s 1\nrow s 2\n",
    ),
    (b"", Status::Plan, b"plan: line 1 column 1: header\n"),
    (
        b"glaze 1\nsource s\nsource s",
        Status::Plan,
        b"plan: line 3 column 8: taken\n",
    ),
    (
        b"glaze 1\nfilter a b . = 5\nfilter b a . = 5\n",
        Status::Plan,
        b"plan: cycle a b\n",
    ),
];

#[test]
fn checks_say_what_stands_in_a_text(rt: HostRuntime) -> Result<(), Fail> {
    let alloc = rt.alloc();
    for (plan, status, text) in CHECKS {
        let (given, sink) = call(alloc, CHECK, plan, Calls::new(alloc), 100)?;
        assert_eq!(rt; given, status);
        assert_eq!(rt; sink.bytes(), text);
    }
    Ok(())
}

/// An order, bytes, and the status and the text to which their replay comes.
const REPLAYS: [(&[u8], &[u8], Status, &[u8]); 7] = [
    (b"w0", b"", Status::Plan, b"plan: line 1 column 1: header\n"),
    (
        b"w0,p0,w0",
        PROXY,
        Status::Done,
        b"order w0,p0,w0\nat 0 w0\nreply 0 ok\nat 1 p0\ntold a insert 0 1\nat 2 w0\nreply 0 ok\nlist s [1,2]\nlist p [1]\nheld p queued 1\n",
    ),
    (
        b"w0,p0,p0",
        PROXY,
        Status::Order,
        b"order: place 2: empty-queue\n",
    ),
    (
        b"w0",
        b"glaze 1\nlimit 1\nsource s\nrow s 1\nrow s 2\n",
        Status::TooLong,
        b"too-long s 2\n",
    ),
    (
        b"w0",
        b"glaze 1",
        Status::Order,
        b"order: place 0: no-writer\n",
    ),
    (
        b"w0",
        b"glaze 1\nsource s\nlisten b on s after a\nlisten a on s echo\nwriter\nsection\nadd s 1\n",
        Status::Done,
        b"order w0\nat 0 w0\nreply 0 ok\ntold a insert 0 1\nrefused a write-back\ntold b insert 0 1\nlist s [1]\n",
    ),
    // a list of each kind, another parameter for each that has one, and a member that goes and comes
    (
        b"w0",
        b"glaze 1\nfunction m l add(.,10)\nfilter l s . > 1\nsource s\nrow s 1\nrow s 2\nrow s 3\nrange r s tail 2 0\nsorted o s .\ncomposite c s may s\ncollection k c .\nlisten a on m\nwriter\nsection\napply m add(.,20)\nmatch l . > 2\nbounds r head 0 2\norder o desc .\ninsert s 0 5\ndetach c 0\nattach c s\n",
        Status::Done,
        b"order w0\nat 0 w0\nreply 0 ok\nreply 1 ok\nreply 2 ok\nreply 3 ok\nreply 4 ok\nreply 5 ok\nreply 6 ok\ntold a delete 0 12; insert 0 25; update 1 13 23\nlist m [25,23]\nlist l [5,3]\nlist s [5,1,2,3]\nlist r [5,1]\nlist o [5,3,2,1]\nlist c [5,1,2,3]\nlist k []\n",
    ),
];

#[test]
fn replays_come_to_one_text(rt: HostRuntime) -> Result<(), Fail> {
    let alloc = rt.alloc();
    for (order, plan, status, text) in REPLAYS {
        let words: [&[u8]; 2] = [b"replay", order];
        let (given, sink) = call(alloc, words.as_slice(), plan, Calls::new(alloc), 500)?;
        assert_eq!(rt; given, status);
        assert_eq!(rt; sink.bytes(), text);
    }
    Ok(())
}
