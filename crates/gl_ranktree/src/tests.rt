ghost use Rattle.std.specs.Prelude.{◌≡◌, []};

use crate::{Measure, RankTree, Sought, Summary};
use std::process::Abort;
use std::test::Fail;

// A number of points.
#[derive(Clone, Copy, Debug, PartialEq)]
struct Points {
    total: u32,
}

impl Summary for Points {
    ghost use Rattle.std.specs.Prelude.{◌+◌, ◌^◌, nat_lt};
    ghost use Rattle.std.proofs.Common.{ap, zero-add, add-zero, add_assoc, arith};
    ghost use Rattle.std.proofs.lemmas.Bool.{lt-ltb, ltb-true};

    ghost sums = { record {
      zero = record { total = 0 };
      plus = λ x y. record { total = x.total + y.total };
      fits = λ x. nat_lt x.total (2 ^ 32);
    } };

    ghost laws = { record {
      left_unit = λ x. ap (λ n. record { total = n }) (zero-add x.total);
      right_unit = λ x. ap (λ n. record { total = n }) (add-zero x.total);
      assoc = λ x y z. ap (λ n. record { total = n }) (add_assoc x.total y.total z.total);
      fits_left = λ x y fits. lt-ltb x.total (2 ^ 32) (Prim.omega (arith, ltb-true (x.total + y.total) (2 ^ 32) fits));
      fits_right = λ x y fits. lt-ltb y.total (2 ^ 32) (Prim.omega (arith, ltb-true (x.total + y.total) (2 ^ 32) fits));
    } };

    fn zero() -> Points {
        Points { total: 0 }
    }

    fn plus(self, other: Points) -> Points {
        Points {
            total: self.total.wrapping_add(other.total),
        }
    }
}

// All the points.
#[derive(Clone, Copy)]
struct All;

impl Measure<Points> for All {
    ghost use Rattle.std.specs.Prelude.{refl};

    ghost measured = { λ _ points. points.total };

    ghost empty = { λ _. refl };

    ghost additive = { λ _ _ _. refl };

    fn of(self, sum: Points) -> usize {
        sum.total as usize
    }
}

fn insert(
    rt: &impl Abort,
    tree: &mut RankTree<Points>,
    position: usize,
    total: u32,
) -> Result<u32, Fail> {
    assert!(rt; position <= tree.len() && tree.len() < 100000);
    Ok(tree.insert_at(position, Points { total })?)
}

#[test]
fn entries_keep_their_slots(rt: HostRuntime) -> Result<(), Fail> {
    let mut tree = RankTree::new(rt.alloc());
    let five = insert(&rt, &mut tree, 0, 5)?;
    let two = insert(&rt, &mut tree, 0, 2)?;
    let nine = insert(&rt, &mut tree, 1, 9)?;
    assert_eq!(rt; tree.get(0), Some((two, Points { total: 2 })));
    assert_eq!(rt; tree.get(1), Some((nine, Points { total: 9 })));
    assert_eq!(rt; tree.get(2), Some((five, Points { total: 5 })));
    assert_eq!(rt; tree.get(3), None);
    let len = tree.len();
    assert!(rt; len == 3);
    tree.set_own(1, Points { total: 4 });
    let len = tree.len();
    assert!(rt; len == 3);
    assert_eq!(rt; tree.remove_at(0), (two, Points { total: 2 }));
    assert_eq!(rt; tree.get(0), Some((nine, Points { total: 4 })));
    assert_eq!(rt; tree.height(), 2);
    Ok(())
}

// What a tree of one entry is added up to, and where its third point stands.
fn one_entry(tree: &mut RankTree<Points>) -> Result<(Points, Sought<Points>), Fail>
    requires { tree.old.entries ≡ [] }
{
    let point = Points { total: 5 };
    tree.insert_at(0, point)?;
    Ok((tree.sum(), tree.seek(All, 3)))
}

#[test]
fn entries_are_added_up(rt: HostRuntime) -> Result<(), Fail> {
    let mut tree = RankTree::new(rt.alloc());
    let five = Points { total: 5 };
    let (sum, sought) = one_entry(&mut tree)?;
    assert_eq!(rt; sum, five);
    assert_eq!(rt; sought.position, 0);
    assert_eq!(rt; sought.before, Points { total: 0 });
    assert_eq!(rt; sought.own, Some(five));
    Ok(())
}
