//! Texts of plans that are read, and written as the one text of their plan.

use crate::{read_plan, write_plan};
use gl_syntax::Bytes;
use std::alloc::Global;

/// A text, and the one text of its plan.
const TEXTS: [(&[u8], &[u8]); 5] = [
    (b"glaze 1", b"glaze 1\nlimit 16777216\n"),
    (
        b"glaze 1\nsource s\ncsv s\n01,-5,\"a,b\"\nend csv\n",
        b"glaze 1\nlimit 16777216\nsource s\nrow s [\"01\",-5,\"a,b\"]\n",
    ),
    (
        b"glaze 1\n# a comment\n\nfilter f s (. = 1 or not (.0 < 2)) and all\nsource s\nlimit 5",
        b"glaze 1\nlimit 5\nfilter f s (. = 1 or not .0 < 2) and all\nsource s\n",
    ),
    (
        b"glaze 1\nlisten b on s after a\nrow s \"\\x01\\n\"\nlisten a on s echo\nsource s\nrow s []\n",
        b"glaze 1\nlimit 16777216\nsource s\nrow s \"\\x01\\n\"\nrow s []\nlisten b on s after a\nlisten a on s echo\n",
    ),
    (
        b"glaze 1\nsource s\ncomposite c s s may s\nwriter\nwriter\nsection\nsection\naddall s [1,[]]\ndetach c 0\nshow c",
        b"glaze 1\nlimit 16777216\nsource s\ncomposite c s s may s\nwriter\nwriter\nsection\nsection\naddall s [1,[]]\ndetach c 0\nshow c\n",
    ),
];

// The one text of the plan that the bytes spell.
fn rewritten(alloc: Global, bytes: &[u8]) -> Option<Bytes> {
    match read_plan(alloc, bytes) {
        Ok(plan) => {
            let mut text = Bytes::new(alloc);
            match write_plan(alloc, &plan, &mut text) {
                Ok(()) => Some(text),
                Err(_) => None,
            }
        }
        Err(_) => None,
    }
}

fn is_rewritten(alloc: Global, bytes: &[u8], wanted: &[u8]) -> bool {
    match rewritten(alloc, bytes) {
        Some(text) => text.as_slice() == wanted,
        None => false,
    }
}

#[test]
fn plans_are_written_as_one_text(rt: HostRuntime) {
    for (text, wanted) in TEXTS {
        assert!(rt; is_rewritten(rt.alloc(), text, wanted));
        assert!(rt; is_rewritten(rt.alloc(), wanted, wanted));
    }
}
