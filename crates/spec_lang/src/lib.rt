//! What matchers, orders, functions and child models mean: definitions and laws over values, with the plain types that
//! they speak of and no code.
#![tactic(auto)]

/// How a matcher compares what its path leads to with its literal.
#[derive(Clone, Copy, PartialEq, Eq, Debug)]
pub enum Test {
    Eq,
    Ne,
    Lt,
    Le,
    Gt,
    Ge,
}

/// Which places of a list a range shows: `Head(a, b)` from a to b, `Tail(a, b)` from a to b counted from the end,
/// `Middle(a, b)` from a to b counted from the end. The start is shown, the end isn't.
#[derive(Clone, Copy, PartialEq, Eq, Debug)]
pub enum Bounds {
    Head(u32, u32),
    Tail(u32, u32),
    Middle(u32, u32),
}

/// What a new matcher does to what the old one shows: it accepts everything or nothing, no more than the old one, no
/// less, or neither can be said (`MatcherEditor` of Glazed Lists).
#[derive(Clone, Copy, PartialEq, Eq, Debug)]
pub enum EditKind {
    All,
    Nothing,
    Constrained,
    Relaxed,
    Changed,
}
