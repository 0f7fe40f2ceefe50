use super::{Numbers, OrderFault, order};
use std::process::Abort;

/// How many numbers there are, their edges, two digits each, and the answer: `=` and the order, or `@` and the cycle.
/// Found by trying all orders and all cycles, in a program of its own.
const CASES: [(u32, &[u8], &[u8]); 19] = [
    (3, b"0210", b"=201"),
    (3, b"0110", b"@01"),
    (0, b"", b"="),
    (1, b"", b"=0"),
    (1, b"00", b"@0"),
    (4, b"", b"=0123"),
    // A diamond, an edge told three times, and chains both ways.
    (4, b"03013212", b"=2130"),
    (3, b"02021202", b"=201"),
    (5, b"04142331", b"=40132"),
    (6, b"5045342312", b"=054321"),
    (6, b"0112233445", b"=543210"),
    // The least number on any cycle, then the fewest items, then the least lists.
    (4, b"221331", b"@13"),
    (4, b"32230310", b"@23"),
    (6, b"155112233144", b"@15"),
    (6, b"144221133201", b"@132"),
    (7, b"06633002255040", b"@025"),
    (5, b"122334411331", b"@13"),
    (8, b"76675443350517", b"@354"),
    (5, b"010213243040", b"@013"),
];

fn digit(byte: u8) -> u32 {
    byte.wrapping_sub(b'0') as u32
}

fn edges(rt: &(impl Abort + AllocGlobal), digits: &[u8]) -> Vec<(u32, u32)> {
    let mut edges = Vec::new(rt.alloc());
    for pair in digits.chunks_exact(2) {
        assert!(rt; edges.push((digit(pair[0]), digit(pair[1]))).is_ok());
    }
    edges
}

// Whether the digits are these numbers.
fn are(digits: &[u8], numbers: &[u32]) -> bool {
    if digits.len() != numbers.len() {
        return false;
    }
    for i in 0..digits.len() {
        if digit(digits[i]) != numbers[i] {
            return false;
        }
    }
    true
}

fn is_answer(text: &[u8], sign: u8, numbers: &[u32]) -> bool {
    match text {
        [first, digits @ ..] => *first == sign && are(digits, numbers),
        [] => false,
    }
}

fn check(rt: &(impl Abort + AllocGlobal), n: u32, edges: &[(u32, u32)], answer: &[u8]) {
    let within = edges.iter().all(|edge| edge.0 < n && edge.1 < n);
    assert!(rt; within);
    match order(rt.alloc(), n, edges) {
        Ok(placed) => assert!(rt; is_answer(answer, b'=', placed.as_slice())),
        Err(OrderFault::Cycle(cycle)) => assert!(rt; is_answer(answer, b'@', cycle.as_slice())),
        Err(OrderFault::Memory) => panic!(rt; "out of memory"),
    }
}

#[test]
fn orders_and_cycles(rt: HostRuntime) {
    for (n, digits, answer) in &CASES {
        check(&rt, *n, edges(&rt, digits).as_slice(), answer);
    }
}

#[test]
fn numbers_are_kept(rt: HostRuntime) -> Result<(), (u32, super::Memory)> {
    let mut numbers = Numbers::new(rt.alloc());
    numbers.push(7)?;
    numbers.push(u32::MAX)?;
    assert_eq!(rt; numbers.as_slice(), [7, u32::MAX].as_slice());
    assert_eq!(rt; numbers.len(), 2);
    Ok(())
}
