ghost use Rattle.std.specs.Prelude.{◌≡◌, ◌+◌, ℕ};

use crate::summary::Summary;

/// A number that is read off the sum of some entries, as how many of something they hold.
pub trait Measure<S: Summary>: Copy {
    // What is read off a sum.
    ghost measured: { Self → S → ℕ };

    /// The number of a sum.
    fn of(self, sum: S) -> usize
        ensures { result ≡ measured self sum };

    // What each impl proves: nothing measures nothing, and the number of a sum is the sum of the numbers.
    ghost empty: { (by : Self) → measured by S.sums.zero ≡ 0 };

    ghost additive: { (by : Self) (x y : S) → measured by (S.sums.plus x y) ≡ measured by x + measured by y };
}
