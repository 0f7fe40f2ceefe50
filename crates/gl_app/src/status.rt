//! How a call of the program ends.

ghost use Rattle.std.specs.Prelude.{◌≡◌};

/// How a call of the program ended.
#[derive(Clone, Copy, Debug, PartialEq, Eq)]
pub enum Status {
    /// All was done, and the text written whole.
    Done,
    /// The words have no form.
    Usage,
    /// The text is no plan.
    Plan,
    /// The source failed.
    Read,
    /// The sink failed.
    Write,
    /// Memory ran out.
    Memory,
    /// The order doesn't fit the plan.
    Order,
    /// The source had more bytes than a plan may have.
    TooLarge,
    /// A list would be longer than lists may be.
    TooLong,
}

impl Status {
    ghost use Rattle.gl_app.specs.Status.{code_of};

    /// The status with which the process ends.
    pub fn code(&self) -> u8
        ensures { result ≡ code_of self.now }
    {
        match self {
            Status::Done => 0,
            Status::Usage => 2,
            Status::Plan => 3,
            Status::Read => 4,
            Status::Write => 5,
            Status::Memory => 6,
            Status::Order => 7,
            Status::TooLarge => 8,
            Status::TooLong => 9,
        }
    }
}
