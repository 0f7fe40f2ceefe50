ghost use Rattle.std.specs.Prelude.{◌≡◌, ◌≢◌, ◌≤◌, ◌-◌, [], length, ℕ, List, Option, IfSome, Some};
ghost use Rattle.std.specs.Io.KnownBytes.{Appends};
ghost use Rattle.gl_outside.specs.Faults.{Rose, GoesOn};
ghost use Rattle.gl_outside.specs.Sink.{AppendsPrefix};

/// What a call of [`Sink::give`] answers.
#[derive(Clone, Copy, Debug, PartialEq, Eq)]
pub enum Given {
    /// The whole piece was taken.
    All,
    /// The sink failed. It took a prefix of the piece, which may be nothing or all of it.
    Failed,
}

/// Where bytes go, one after another: a file, a terminal, a list in memory.
///
/// A sink may tell what it has taken, as one in memory does, and then it is held to it.
pub trait Sink {
    /// The bytes that the sink has taken, where it tells them.
    ghost contents: { Self → Option (List ℕ) };

    /// How often the sink has failed.
    ghost faults: { Self → ℕ };

    /// The sink takes so many bytes more without a fault. One that can't know says so of no number.
    ghost has_room: { Self → ℕ → Type 0 } = { λ _ _. ⊥ };

    /// Gives the sink a piece, which may be empty.
    fn give(&mut self, piece: &[u8]) -> Given

        // The bytes, in order.
        ensures all { result ≡ Given.All
            → Appends (contents self.old) (contents self.new) piece.now }
        ensures part { AppendsPrefix (contents self.old) (contents self.new) piece.now }

        // The faults.
        ensures cause { result ≡ Given.Failed → Rose (faults self.old) (faults self.new) }
        ensures nothing { IfSome (contents self.old) (λ had. contents self.new ≡ Some had
            → piece.now ≢ [] → Rose (faults self.old) (faults self.new)) }
        ensures count { GoesOn (faults self.old) (faults self.new) }
        ensures room { (n : ℕ) → length piece.now ≤ n → has_room self.old n
            → has_room self.new (n - length piece.now) × (faults self.new ≡ faults self.old) };
}
