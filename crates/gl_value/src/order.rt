//! The order of values.

ghost use Rattle.std.specs.Prelude.{◌≡◌, ◌↔◌, IsTrue};
ghost use Rattle.std.specs.Cmp.Lexicographic.{slice_cmp};
ghost use Rattle.spec_value.specs.Order as order;

use crate::value::{Value, ValueShape};
use std::cmp::Ordering;

impl Value {
    /// How two values stand to each other: numbers before texts before lists; numbers by size, texts by their bytes,
    /// lists by the first elements that differ, a list that ends first before the other. It takes no memory and recurses
    /// once a level of nesting.
    pub fn cmp(&self, other: &Value) -> Ordering
        ensures value { result ≡ order.cmp self.now other.now }
        ensures equal { (result ≡ Ordering.Equal) ↔ (self.now ≡ other.now) }
    {
        cmp_values(self, other)
    }

    /// Whether two values are equal.
    pub fn same(&self, other: &Value) -> bool
        ensures { IsTrue result ↔ (self.now ≡ other.now) }
    {
        match Value::cmp(self, other) {
            Ordering::Less => false,
            Ordering::Equal => true,
            Ordering::Greater => false,
        }
    }
}

#[cycle(order)]
fn cmp_values(a: &Value, b: &Value) -> Ordering
    ensures { result ≡ order.cmp a.now b.now }
{
    match (a.shape(), b.shape()) {
        (ValueShape::Num(m), ValueShape::Num(n)) => m.cmp(&n),
        (ValueShape::Num(_), _) => Ordering::Less,
        (ValueShape::Text(_), ValueShape::Num(_)) => Ordering::Greater,
        (ValueShape::Text(s), ValueShape::Text(t)) => s.bytes().cmp(t.bytes()),
        (ValueShape::Text(_), ValueShape::Items(_)) => Ordering::Less,
        (ValueShape::Items(vs), ValueShape::Items(ws)) => cmp_lists(vs, ws),
        (ValueShape::Items(_), _) => Ordering::Greater,
    }
}

#[cycle(order)]
fn cmp_lists(a: &[Value], b: &[Value]) -> Ordering
    ensures { result ≡ slice_cmp order.cmp a.now b.now }
{
    let common = a.len().min(b.len());
    for i in 0..common {
        match cmp_values(&a[i], &b[i]) {
            Ordering::Less => return Ordering::Less,
            Ordering::Equal => {}
            Ordering::Greater => return Ordering::Greater,
        }
    }
    a.len().cmp(&b.len())
}

impl PartialEq for Value {
    ghost use Rattle.std.specs.Ordering.{eq_by_cmp};
    ghost use Rattle.std.specs.Cmp.{partial_equiv_from_equiv, eq_by_cmp_equiv};
    ghost use Rattle.spec_value.proofs.Order.{cmp_total};

    ghost eq = { eq_by_cmp order.cmp };

    ghost laws = { partial_equiv_from_equiv (eq_by_cmp_equiv cmp_total) };

    fn eq(&self, other: &Value) -> bool {
        Value::cmp(self, other) == Ordering::Equal
    }
}

impl Eq for Value {
    ghost use Rattle.std.specs.Cmp.{eq_by_cmp_equiv};
    ghost use Rattle.spec_value.proofs.Order.{cmp_total};

    ghost laws = { eq_by_cmp_equiv cmp_total };
}

impl PartialOrd for Value {
    ghost use Rattle.std.specs.Ordering.{as_partial_cmp};
    ghost use Rattle.std.specs.Cmp.{partial_order_from_total};
    ghost use Rattle.spec_value.proofs.Order.{cmp_total};

    ghost partial_cmp = { as_partial_cmp order.cmp };

    ghost laws = { partial_order_from_total cmp_total };

    fn partial_cmp(&self, other: &Value) -> Option<Ordering> {
        Some(Value::cmp(self, other))
    }
}

// The order is total, and only equal values are `Equal` in it.
impl Ord for Value {
    ghost use Rattle.std.proofs.Common.{refl};
    ghost use Rattle.spec_value.proofs.Order.{cmp_total};

    ghost cmp = { order.cmp };

    ghost total = { cmp_total };

    ghost matches_partial_cmp = { λ x y. refl };

    ghost matches_eq = { λ x y. refl };

    fn cmp(&self, other: &Value) -> Ordering {
        cmp_values(self, other)
    }
}
