//! What is wrong with the text of a plan.

/// What a fault of a plan's text is.
#[derive(Clone, Copy, Debug, PartialEq, Eq)]
pub enum PlanKind {
    /// The text isn't UTF-8.
    Utf8,
    /// The first line isn't `glaze 1`.
    Header,
    /// The line has too many bytes.
    LongLine,
    /// The line is of no form.
    Form,
    /// The line may not stand there.
    Place,
    /// The records of the source have no end.
    Block,
    /// There are more lists, listeners or writers than a plan may have.
    Many,
    /// An earlier line declares the name too.
    Taken,
    /// No line declares the name.
    Unknown,
    /// The list is of another kind than the line needs.
    Kind,
    /// The list is attached, and is neither a member nor one that may become a member.
    Member,
    /// An earlier transaction has the same input.
    Second,
    /// A composite or a collection depends on a proxy.
    OverProxy,
}

/// The first line that may not stand where it stands, or is one too many, by its number in the text.
#[derive(Clone, Copy, Debug, PartialEq, Eq)]
pub struct Misplaced {
    pub line: u64,
    pub kind: PlanKind,
}
