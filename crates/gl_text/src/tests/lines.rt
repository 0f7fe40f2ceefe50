//! Lines that are read and written, and the columns where bytes are those of none.

use crate::{read_line, write_line};
use gl_syntax::ReadFault;
use gl_value::Bytes;
use std::alloc::Global;

/// A line of each form, in its one spelling.
const LINES: [&[u8]; 37] = [
    b"limit 16777216",
    b"source s",
    b"row s [1,\"a\",[]]",
    b"csv s",
    b"end csv",
    b"filter f s .0 = 1 and not (.1 < \"b\" or all)",
    b"sorted o f .0.1, desc .",
    b"unique u f .",
    b"grouping g f desc .2",
    b"range r f middle 0 4294967295",
    b"function n r [add(-1,sum(.,.1)),count(.),\"a\\n\"]",
    b"collection l g .1.65535",
    b"composite c s maya may t u",
    b"transaction t s",
    b"freezable z f",
    b"proxy p z",
    b"listen a on f after b,c echo",
    b"writer",
    b"section",
    b"add s -9223372036854775808",
    b"addall s [1,[2],\"\"]",
    b"insert s 0 7",
    b"set s 4294967295 []",
    b"remove s 10",
    b"clear s",
    b"match f none",
    b"order o .",
    b"bounds r tail 3 1",
    b"apply n .",
    b"attach c t",
    b"detach c 0",
    b"begin t",
    b"commit t",
    b"rollback t",
    b"freeze z",
    b"thaw z",
    b"show a_name_of_32_letters_and_digits_",
];

/// Bytes that are no line, and the column of the first byte that no line has there.
const FAULTS: [(&[u8], u64); 22] = [
    (b"", 1),
    (b"sou", 4),
    (b"soup s", 4),
    (b"addal s", 6),
    (b"writer ", 7),
    (b"end csvs", 8),
    (b"source", 7),
    (b"source S", 8),
    (b"source s t", 9),
    (b"source may", 11),
    (b"source a_name_of_33_letters_and_digits_x", 40),
    (b"limit 0", 7),
    (b"limit 16777217", 14),
    (b"row s [1,\"a", 12),
    (
        b"row s [[[[[[[[[[[[[[[[[[[[[[[[[[[[[[[[[[[[[[[[[[[[[[[[[[[[[[[[[[[[[[[[[",
        71,
    ),
    (b"addall s 1", 10),
    (b"insert s 4294967296 1", 19),
    (b"filter f s .0 = 1 xor all", 19),
    (b"composite c a may may", 22),
    (b"composite c may s may t", 22),
    (b"listen a on f after b,", 23),
    (b"listen a on f echo after b", 19),
];

// The one spelling of the line, or the column where there is none.
fn rewritten(alloc: Global, bytes: &[u8]) -> Result<Bytes, ReadFault> {
    match read_line(alloc, bytes) {
        Ok(line) => {
            let mut text = Bytes::new(alloc);
            let written = write_line(alloc, &line, &mut text);
            drop(line);
            match written {
                Ok(()) => Ok(text),
                Err(_) => Err(ReadFault::Memory),
            }
        }
        Err(fault) => Err(fault),
    }
}

#[test]
fn lines_are_read_and_written(rt: HostRuntime) {
    for text in LINES {
        match rewritten(rt.alloc(), text) {
            Ok(line) => assert!(rt; line.as_slice() == text),
            Err(_) => panic!(rt; "no line"),
        }
    }
    for (text, column) in FAULTS {
        match rewritten(rt.alloc(), text) {
            Ok(_) => panic!(rt; "a line"),
            Err(fault) => assert_eq!(rt; fault, ReadFault::Form { column }),
        }
    }
}
