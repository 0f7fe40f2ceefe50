ghost use Rattle.std.specs.Prelude.{◌≡◌, IsTrue};
ghost use Rattle.gl_ranktree.specs.Summary.{Sums, AreSums};

/// What the entries of a tree are added up to, as a count of something in each of them.
pub trait Summary: Copy {
    // The operations, and which values the type can hold.
    ghost sums: { Sums Self };

    /// The sum of no entries.
    fn zero() -> Self
        ensures { result ≡ sums.zero };

    /// The sum of the entries of both. It need not be right where the type cannot hold it.
    fn plus(self, other: Self) -> Self
        ensures { IsTrue (sums.fits (sums.plus self other)) → result ≡ sums.plus self other };

    // What each impl proves.
    ghost laws: { AreSums sums };
}

// The summary of a tree of which only the places matter.
impl Summary for () {
    ghost use Rattle.std.specs.Prelude.{true, refl};

    ghost sums = { record { zero = tt; plus = λ _ _. tt; fits = λ _. true } };

    ghost laws = { record { left_unit = λ _. refl; right_unit = λ _. refl; assoc = λ _ _ _. refl; fits_left = λ _ _ h. h; fits_right = λ _ _ h. h } };

    fn zero() {}

    fn plus(self, _other: ()) {}
}
