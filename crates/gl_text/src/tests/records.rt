//! Blocks of CSV records.

use crate::records::block_rows;
use crate::write_value;
use gl_value::{Bytes, Value};
use std::test::Fail;

// Blocks of records, and the list of the elements that they stand for.
const BLOCKS: [(&str, &str); 11] = [
    ("01,-5,\"a,b\"\n", "[[\"01\",-5,\"a,b\"]]"),
    ("", "[]"),
    ("\n", "[]"),
    (
        "\"1\",+1, 1,-0,9223372036854775808,-9223372036854775808\n",
        "[[1,\"+1\",\" 1\",\"-0\",\"9223372036854775808\",-9223372036854775808]]",
    ),
    ("a,\n,\n", "[[\"a\",\"\"],[\"\",\"\"]]"),
    ("\u{feff}a\n", "[[\"a\"]]"),
    ("a\n\nb\n", "[[\"a\"],[\"b\"]]"),
    ("\"x\ny\",\u{e4}\r\nb\n", "[[\"x\\ny\",\"\u{e4}\"],[\"b\"]]"),
    ("\"a\"\"b\"\n", "[[\"a\\\"b\"]]"),
    ("\"end\n", "[[\"end\\n\"]]"),
    ("a\"b,\"c\"d\n", "[[\"a\\\"b\",\"cd\"]]"),
];

#[test]
fn reads_blocks_of_records(rt: HostRuntime) -> Result<(), Fail> {
    for (block, spelled) in BLOCKS {
        let rows = block_rows(rt.alloc(), block.as_bytes())?;
        let mut text = Bytes::new(rt.alloc());
        write_value(rt.alloc(), &Value::items(rows), &mut text)?;
        assert_eq!(rt; text.as_slice(), spelled.as_bytes());
    }
    Ok(())
}
