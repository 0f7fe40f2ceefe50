//! What orders values.

ghost use Rattle.std.specs.Prelude.{◌≡◌, ◌+◌};

use crate::steps::Steps;
use crate::value::Value;
use std::cmp::Ordering;
use std::sync::ledger::Ledger;

/// An order of values in which different values may be `Equal`.
pub trait Compare {
    ghost use Rattle.std.specs.declared.cmp.Ordering.{Ordering};
    ghost use Rattle.std.specs.Cmp.{IsTotalOrder};
    ghost use Rattle.spec_value.specs.Tree.{Tree};

    // How two values stand to each other.
    ghost order: { Self → Tree → Tree → Ordering };

    /// How two values stand to each other, counted as one step.
    fn compare<L: Ledger>(&self, a: &Value, b: &Value, steps: &mut Steps<L>) -> Ordering
        ensures value { result ≡ order self.now a.now b.now }
        ensures counted { steps.new ≡ steps.old + 1 };

    // The order is one, up to values that are `Equal`.
    ghost weak: { (o : Self) → IsTotalOrder (order o) };
}
