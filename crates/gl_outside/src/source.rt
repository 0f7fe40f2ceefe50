ghost use Rattle.std.specs.Prelude.{◌≡◌, ◌<◌, ℕ, List, Option, length, IfSome};
ghost use Rattle.std.specs.Io.KnownBytes.{Consumes};
ghost use Rattle.gl_outside.specs.Faults.{Rose, GoesOn};
ghost use Rattle.gl_outside.specs.Source.{taken_bytes, FitsRoom, EndsExactly};

/// What a call of [`Source::take`] answers.
#[derive(Clone, Copy, Debug, PartialEq, Eq)]
pub enum Taken {
    /// So many bytes stand at the beginning of the room. None says that the source is at its end.
    Some(usize),
    /// No byte is left.
    End,
    /// The source failed, and gave no byte.
    Failed,
}

/// Where bytes come from, one after another: a file, a terminal, a list in memory.
///
/// A source may tell what it will give, as one in memory does, and then it is held to it.
pub trait Source {
    /// The bytes that calls will give from here on, where the source tells them.
    ghost remaining: { Self → Option (List ℕ) };

    /// How often the source has failed.
    ghost faults: { Self → ℕ };

    /// The source fails at no call from here on. One that can't know says so of no state.
    ghost never_fails: { Self → Type 0 } = { λ _. ⊥ };

    /// Takes the next bytes into the beginning of `room`. What stands after them is left open, and
    /// so is all of `room` where no byte was taken.
    fn take(&mut self, room: &mut [u8]) -> Taken
        requires { 0 < length room.old }

        // The bytes, in order, and the end of them.
        ensures fits { FitsRoom result room.new }
        ensures bytes { Consumes (remaining self.old) (remaining self.new)
            (taken_bytes result room.new) }
        ensures end { IfSome (remaining self.old) (EndsExactly result) }

        // The faults.
        ensures cause { result ≡ Taken.Failed → Rose (faults self.old) (faults self.new) }
        ensures count { GoesOn (faults self.old) (faults self.new) }
        ensures sound { never_fails self.old
            → never_fails self.new × (faults self.new ≡ faults self.old) };
}
