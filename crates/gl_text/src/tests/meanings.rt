//! What the matchers, orders, functions and child models of lines say of values.

ghost use Rattle.std.specs.Prelude.{◌≡◌, ◌<◌};

use crate::{Memory, Value, read_line, read_value};
use gl_lines::Line;
use gl_syntax::ReadFault;
use gl_value::{Compare, Steps};
use std::alloc::Global;
use std::cmp::Ordering;
use std::marker::Brand;
use std::sync::ledger::{Blank, Ledger};
use std::test::Fail;

/// A line, a value, and what is said of it: of a matcher 1 where it accepts the value, else 0; of an order how it finds
/// the first two elements of the value, less -1, equal 0 and greater 1; of a function what it makes of the value; of a
/// child model how many children the value has, up to three.
const MEANINGS: [(&str, &str, &str); 33] = [
    // comparisons: a text stands after every number, and a path that leads nowhere comes to the empty list
    ("filter f s .0 < 2", "[1]", "1"),
    ("filter f s .0 < 1", "[1]", "0"),
    ("filter f s .0 <= 1", "[1]", "1"),
    ("filter f s .0 > 1", "[1]", "0"),
    ("filter f s .0 >= 1", "[1]", "1"),
    ("filter f s .0 != 1", "[1]", "0"),
    ("filter f s .1 > 9223372036854775807", "[1,\"a\"]", "1"),
    ("filter f s .9 > 9223372036854775807", "[1]", "1"),
    ("filter f s .1.0 = []", "[1,\"a\"]", "1"),
    ("filter f s .0.1 = 5", "[[4,5]]", "1"),
    // connectives
    ("filter f s all and none", "1", "0"),
    ("filter f s all or none", "1", "1"),
    ("filter f s not (all and none)", "1", "1"),
    // orders: `desc` turns its own key round, and elements beyond the keys don't count
    ("sorted o s .0, .1", "[[1,2,7],[1,3]]", "-1"),
    ("sorted o s .0, desc .1", "[[1,2,7],[1,3]]", "1"),
    ("sorted o s .0, desc .1", "[[1,2,7],[1,2]]", "0"),
    ("sorted o s .", "[9,\"\"]", "-1"),
    // counts and sums: of no list there are none, and sums stop at the ends, step by step
    ("function n s [count(.0),sum(.0,.)]", "[7]", "[0,0]"),
    ("function n s [count(.0),sum(.0,.)]", "[\"a\"]", "[0,0]"),
    ("function n s [count(.0),sum(.0,.)]", "[[4,5]]", "[2,9]"),
    ("function n s [count(.0),sum(.0,.)]", "[[]]", "[0,0]"),
    ("function n s [count(.9),sum(.9,.)]", "[1]", "[0,0]"),
    (
        "function n s sum(.,.)",
        "[9223372036854775807,1,-1]",
        "9223372036854775806",
    ),
    (
        "function n s add(.,1)",
        "9223372036854775807",
        "9223372036854775807",
    ),
    (
        "function n s add(.,-1)",
        "-9223372036854775808",
        "-9223372036854775808",
    ),
    (
        "function n s add(.,-9223372036854775808)",
        "9223372036854775807",
        "-1",
    ),
    ("function n s add(.0,.1)", "[2,3]", "5"),
    ("function n s add(.0,.1)", "[2,\"3\"]", "2"),
    ("function n s [.0,.1.1,3]", "[[4,5],\"a\"]", "[[4,5],[],3]"),
    ("function n s \"a\"", "1", "\"a\""),
    // children
    ("collection l s .0", "[[4,5]]", "2"),
    ("collection l s .0", "[\"a\"]", "0"),
    ("collection l s .9", "[1]", "0"),
];

fn number_of(ordering: Ordering) -> i64 {
    match ordering {
        Ordering::Less => -1,
        Ordering::Equal => 0,
        Ordering::Greater => 1,
    }
}

fn number_of_few(values: &[Value]) -> i64 {
    match values {
        [] => 0,
        [_] => 1,
        [_, _] => 2,
        _ => 3,
    }
}

fn said<L: Ledger>(
    alloc: Global,
    line: &Line,
    value: &Value,
    steps: &mut Steps<L>,
) -> Result<Value, Memory> {
    match line {
        Line::Filter { matcher, .. } => {
            let accepted = matcher.copy(alloc)?.accepts(value, steps);
            Ok(Value::num(if accepted { 1 } else { 0 }))
        }
        Line::Sorted { order, .. } => match value.elements() {
            [first, second] => Ok(Value::num(number_of(
                order.copy(alloc)?.compare(first, second, steps),
            ))),
            _ => Ok(Value::empty()),
        },
        Line::Function { func, .. } => func.copy(alloc)?.eval(alloc, value),
        Line::Collection { kids, .. } => Ok(Value::num(number_of_few(kids.copy(alloc)?.of(value)))),
        _ => Ok(Value::empty()),
    }
}

fn is_said<L: Ledger>(
    alloc: Global,
    row: (&str, &str, &str),
    blank: Blank,
) -> Result<bool, ReadFault>
    requires name { blank.name ≡ L.name }
    requires parts { blank.parts ≡ L.parts }
    requires some { 0 < blank.parts }
{
    let mut steps: Steps<L> = Steps::new(blank);
    let value = read_value(alloc, row.1.as_bytes())?;
    let wanted = read_value(alloc, row.2.as_bytes())?;
    let line = match read_line(alloc, row.0.as_bytes()) {
        Ok(line) => line,
        Err(fault) => return Err(fault),
    };
    let answer = said(alloc, &line, &value, &mut steps);
    drop(line);
    match answer {
        Ok(answer) => Ok(answer.same(&wanted)),
        Err(_) => Err(ReadFault::Memory),
    }
}

#[test]
fn what_lines_say_of_values(rt: HostRuntime) -> Result<(), Fail> {
    for row in MEANINGS {
        let text = row.0;
        assert!(rt; is_said::<Brand>(rt.alloc(), row, Blank::new(1))?, "{text}");
    }
    Ok(())
}
