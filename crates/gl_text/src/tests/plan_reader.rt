//! Whole texts, with their plans, their first faults and their first cycles.

use crate::{Bytes, into_plan, read_plan};
use gl_lines::PlanKind;
use gl_plan::{Names, Plan, PlanFault};
use std::process::Abort;

/// A text, and the line, the column and the kind of its first fault.
const FAULTS: [(&[u8], u64, u64, PlanKind); 21] = [
    (b"", 1, 1, PlanKind::Header),
    (b"glaze 2\n", 1, 1, PlanKind::Header),
    (b"glaze 1\nsource s\xff", 2, 9, PlanKind::Utf8),
    (
        b"glaze 1\nsource s\ncsv s\n\xc3\xa4\xc3\nend csv",
        4,
        3,
        PlanKind::Utf8,
    ),
    (b"glaze 1\n\n# a\nsource s t", 4, 9, PlanKind::Form),
    (b"glaze 1\nglaze 1", 2, 2, PlanKind::Form),
    (b"glaze 1\nsource s\nrow s [1,\"a", 3, 12, PlanKind::Form),
    (b"glaze 1\nsection\n", 2, 1, PlanKind::Place),
    (b"glaze 1\nlimit 3\nlimit 3", 3, 1, PlanKind::Place),
    (b"glaze 1\nsection\nsource", 2, 1, PlanKind::Place),
    (b"glaze 1\nwriter\ncsv s\nend csv", 3, 1, PlanKind::Place),
    (
        b"glaze 1\nsource s\ncsv s\n1,2\nend csv \n",
        3,
        1,
        PlanKind::Block,
    ),
    (
        b"glaze 1\nsource s\ncsv s\nend csv\nend csv",
        5,
        1,
        PlanKind::Place,
    ),
    (
        b"glaze 1\nsource s\nsource s\nproxy p x",
        3,
        8,
        PlanKind::Taken,
    ),
    (
        b"glaze 1\nproxy p x\nsource s\nsource s",
        2,
        9,
        PlanKind::Unknown,
    ),
    (
        b"glaze 1\ncsv x\n1\nend csv\nsource s",
        2,
        5,
        PlanKind::Unknown,
    ),
    (
        b"glaze 1\nsource s\nproxy p s\nrow p 1",
        4,
        5,
        PlanKind::Kind,
    ),
    (
        b"glaze 1\nsource s\nproxy p s\ncomposite c p",
        4,
        1,
        PlanKind::OverProxy,
    ),
    (
        b"glaze 1\nsource s\ncomposite c s\nwriter\nsection\nattach c c",
        6,
        10,
        PlanKind::Member,
    ),
    (
        b"glaze 1\nsource s\ntransaction t s\ntransaction u s",
        4,
        15,
        PlanKind::Second,
    ),
    // names may be used before their line, and a composite reaches a proxy through another
    (
        b"glaze 1\nsource s\ncomposite c s t\ncomposite t s p\nproxy p s",
        3,
        1,
        PlanKind::OverProxy,
    ),
];

/// A text, and the names of its first cycle: that of lists comes first.
const CYCLES: [(&[u8], [&[u8]; 2]); 3] = [
    (
        b"glaze 1\nsource s\nlisten b on s after a\nlisten a on s after b\n",
        [b"b", b"a"],
    ),
    (b"glaze 1\nproxy q p\nproxy p q", [b"q", b"p"]),
    (
        b"glaze 1\nlisten b on q after a\nlisten a on q after b\nproxy q p\nproxy p q",
        [b"q", b"p"],
    ),
];

/// Two texts of one plan.
const ALIKE: [(&[u8], &[u8]); 3] = [
    (
        b"glaze 1\nsource s\nrow s 1\ncsv s\n01,-5,\"a,b\"\nend csv\nrow s 2",
        b"glaze 1\nsource s\nrow s 1\nrow s [\"01\",-5,\"a,b\"]\nrow s 2\n",
    ),
    (
        b"glaze 1\nlimit 16777216\n# no more\n\nwriter",
        b"glaze 1\nwriter\n",
    ),
    (
        b"glaze 1\nrow s [1]\nlisten l on p\nproxy p s\nsource s\n",
        b"glaze 1\nproxy p s\nsource s\ncsv s\n1\nend csv\nlisten l on p",
    ),
];

fn fault(rt: &(impl Abort + AllocGlobal), text: &[u8]) -> Option<(u64, u64, PlanKind)> {
    match read_plan(rt.alloc(), text) {
        Err(PlanFault::At { line, column, kind }) => Some((line, column, kind)),
        _ => None,
    }
}

#[test]
fn says_which_fault_is_the_first(rt: HostRuntime) {
    for (text, line, column, kind) in &FAULTS {
        assert!(rt; fault(&rt, text) == Some((*line, *column, *kind)));
    }
}

// Whether these are the names.
fn are_names(names: &Names, wanted: &[&[u8]; 2]) -> bool {
    match names.as_slice() {
        [first, second] => {
            first.text().bytes() == wanted[0] && second.text().bytes() == wanted[1]
        }
        _ => false,
    }
}

fn has_cycle(rt: &(impl Abort + AllocGlobal), text: &[u8], wanted: &[&[u8]; 2]) -> bool {
    match read_plan(rt.alloc(), text) {
        Err(PlanFault::Cycle { names }) => are_names(&names, wanted),
        _ => false,
    }
}

#[test]
fn names_the_first_cycle(rt: HostRuntime) {
    for (text, wanted) in &CYCLES {
        assert!(rt; has_cycle(&rt, text, wanted));
    }
}

fn plan(rt: &(impl Abort + AllocGlobal), text: &[u8]) -> Plan {
    match read_plan(rt.alloc(), text) {
        Ok(plan) => plan,
        Err(_) => panic!(rt; "a fault"),
    }
}

// The plan of bytes that are given up.
fn given_plan(rt: &(impl Abort + AllocGlobal), text: &[u8]) -> Plan {
    let mut bytes = Bytes::new(rt.alloc());
    if bytes.push_all(text).is_err() {
        panic!(rt; "no memory");
    }
    match into_plan(rt.alloc(), bytes) {
        Ok(plan) => plan,
        Err(_) => panic!(rt; "a fault"),
    }
}

#[test]
fn reads_one_plan_of_two_texts(rt: HostRuntime) {
    for (text, other) in &ALIKE {
        let made = plan(&rt, text);
        assert!(rt; made.same(&given_plan(&rt, other)));
        match made.copy(rt.alloc()) {
            Ok(copy) => assert!(rt; made.same(&copy)),
            Err(_) => panic!(rt; "out of memory"),
        }
    }
}
