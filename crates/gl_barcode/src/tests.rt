use crate::{Barcode, Memory};

#[test]
fn edits_and_questions(rt: HostRuntime) -> Result<(), Memory> {
    let mut code = Barcode::new(rt.alloc());
    code.insert(0, true)?;
    assert_eq!(rt; code.len(), 1);
    code.insert(1, false)?;
    assert_eq!(rt; code.len(), 2);
    code.insert(2, true)?;
    assert_eq!(rt; code.len(), 3);
    assert_eq!(rt; code.rank(2), 1);
    assert_eq!(rt; code.shown_len(), 2);
    assert_eq!(rt; code.select(1), Some(2));
    assert_eq!(rt; code.select(2), None);
    code.set(1, true)?;
    assert_eq!(rt; code.select(1), Some(1));
    code.reserve(1)?;
    assert_eq!(rt; code.len(), 3);
    code.insert_reserved(0, false);
    assert_eq!(rt; code.len(), 4);
    assert!(rt; !code.shown(0));
    code.remove(0);
    assert_eq!(rt; code.select(0), Some(0));
    Ok(())
}
