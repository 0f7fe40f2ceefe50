use crate::kind;
use gl_lang::{EditKind, Matcher, Matchers, Path, Test};
use gl_value::Value;
use std::alloc::{AllocError, Global};
use std::test::Fail;

// `. > n`
fn above(alloc: Global, n: i64) -> Matcher {
    Matcher::is(Path::new(alloc), Test::Gt, Value::num(n))
}

fn add(parts: &mut Matchers, part: Matcher) -> Result<(), AllocError> {
    match parts.push(part) {
        Ok(()) => Ok(()),
        Err((_, e)) => Err(e),
    }
}

// `. > m and . > n`
fn both(alloc: Global, m: i64, n: i64) -> Result<Matcher, AllocError> {
    let mut parts = Matchers::new(alloc);
    add(&mut parts, above(alloc, m))?;
    add(&mut parts, above(alloc, n))?;
    if parts.len() < 2 {
        return Err(AllocError);
    }
    Ok(Matcher::and(parts))
}

#[test]
fn kinds_of_changes(rt: HostRuntime) -> Result<(), Fail> {
    let alloc = rt.alloc();
    let one = above(alloc, 1);
    let two = above(alloc, 2);
    let pair = both(alloc, 1, 2)?;
    let reversed = both(alloc, 2, 1)?;
    let all = Matcher::all();
    let nothing = Matcher::nothing();
    let table = [
        (&one, &all, EditKind::All),
        (&nothing, &all, EditKind::All),
        (&one, &nothing, EditKind::Nothing),
        (&all, &nothing, EditKind::Nothing),
        (&one, &pair, EditKind::Constrained),
        (&pair, &reversed, EditKind::Constrained),
        (&all, &one, EditKind::Constrained),
        (&one, &one, EditKind::Constrained),
        (&nothing, &two, EditKind::Relaxed),
        (&pair, &two, EditKind::Relaxed),
        (&one, &two, EditKind::Changed),
    ];
    for (old, new, wanted) in table {
        assert_eq!(rt; kind(old, new), wanted);
    }
    Ok(())
}
