//! Values read and written, and the columns of those that are none.

use crate::{Bytes, ReadFault, read_value, write_value};
use std::test::Fail;

const SPELLED: [&[u8]; 13] = [
    b"0",
    b"-9223372036854775808",
    b"9223372036854775807",
    b"\"\"",
    b"\"a\\\"\\\\\\n\\t\\x00\\x0b\\x1f\"",
    b"\"\x7f\xc2\x80\xc3\xa4\xdf\xbf\"",
    b"\"\xe0\xa0\x80\xe2\x82\xac\xed\x9f\xbf\xef\xbf\xbf\"",
    b"\"\xf0\x90\x80\x80\xf3\xbf\xbf\xbf\xf4\x8f\xbf\xbf\"",
    b"[]",
    b"[[]]",
    b"[1,\"a\",[-2,[]],\"\"]",
    b"[[[[]],2],0]",
    b"[[[[[[[[[[[[[[[[[[[[[[[[[[[[[[[[[[[[[[[[[[[[[[[[[[[[[[[[[[[[[[[[[[[[[]]]]]]]]]]]]]]]]]]]]]]]]]]]]]]]]]]]]]]]]]]]]]]]]]]]]]]]]]]]]]]]]]]]]]",
];

const FAULTS: [(&[u8], u64); 34] = [
    (b"", 1),
    (b"-0", 2),
    (b"-9223372036854775809", 20),
    (b"9223372036854775808", 19),
    (b"01", 2),
    (b"+1", 1),
    (b" 1", 1),
    (b"1 ", 2),
    (b"\"", 2),
    (b"\"a", 3),
    (b"\"\x1f\"", 2),
    (b"\"\\q\"", 3),
    (b"\"\\x\"", 4),
    (b"\"\\x09\"", 5),
    (b"\"\\x0a\"", 5),
    (b"\"\\x1F\"", 5),
    (b"\"\\x20\"", 4),
    (b"\"\\x0", 5),
    (b"\"\xff\"", 2),
    (b"\"\x80\"", 2),
    (b"\"\xc3\"", 3),
    (b"\"\xe2\x82\"", 4),
    (b"\"\xe0\x80\x80\"", 3),
    (b"\"\xed\xa0\x80\"", 3),
    (b"\"\xf0\x80\x80\x80\"", 3),
    (b"\"\xf4\x90\x80\x80\"", 3),
    (b"[", 2),
    (b"[1", 3),
    (b"[1,", 4),
    (b"[1,]", 4),
    (b"[1 ,2]", 3),
    (b"[1,\"a", 6),
    (b"[]]", 3),
    (b"[[[[]],2],-", 12),
];

#[test]
fn reads_and_writes_values(rt: HostRuntime) -> Result<(), Fail> {
    for text in SPELLED {
        let value = read_value(rt.alloc(), text)?;
        let mut out = Bytes::new(rt.alloc());
        out.push_all(b"> ")?;
        write_value(rt.alloc(), &value, &mut out)?;
        assert_eq!(rt; &out.as_slice()[2..], text);
    }
    Ok(())
}

#[test]
fn says_where_values_end(rt: HostRuntime) -> Result<(), Fail> {
    for (text, column) in FAULTS {
        match read_value(rt.alloc(), text) {
            Ok(_) => assert!(rt; false, "{text:?}"),
            Err(fault) => assert_eq!(rt; fault, ReadFault::Form { column }),
        }
    }
    Ok(())
}
