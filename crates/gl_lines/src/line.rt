//! Lines of plan texts.

use crate::named::{Named, NamedList};
use gl_lang::{Bounds, Func, Kids, Matcher, Order};
use gl_value::{Items, Value, Values};

/// A line of a plan's text, with what it names and says. The first line of a text and the lines that are skipped are none.
#[derive(Drop)]
pub enum Line {
    /// No list of the plan is ever longer than this.
    Limit {
        limit: u64,
    },
    /// A list that commands edit.
    Source {
        name: Named,
    },
    /// One more opening element of the source.
    Row {
        list: Named,
        value: Value,
    },
    /// Records for the source follow, up to the next `EndCsv`.
    Csv {
        list: Named,
    },
    EndCsv,
    /// The elements that the matcher accepts.
    Filter {
        name: Named,
        input: Named,
        matcher: Matcher,
    },
    /// The elements in the order.
    Sorted {
        name: Named,
        input: Named,
        order: Order,
    },
    /// The first element of each class of the order.
    Unique {
        name: Named,
        input: Named,
        order: Order,
    },
    /// The classes of the order, each as the list of its elements.
    Grouping {
        name: Named,
        input: Named,
        order: Order,
    },
    /// The elements at the places within the bounds.
    Range {
        name: Named,
        input: Named,
        bounds: Bounds,
    },
    /// What the function makes of each element.
    Function {
        name: Named,
        input: Named,
        func: Func,
    },
    /// The children of each element, one after another.
    Collection {
        name: Named,
        input: Named,
        kids: Kids,
    },
    /// The members one after another, with the lists that may become members.
    Composite {
        name: Named,
        members: NamedList,
        may: NamedList,
    },
    /// A list over a source whose changes can be held and taken back.
    Transaction {
        name: Named,
        input: Named,
    },
    /// A list that can be frozen.
    Freezable {
        name: Named,
        input: Named,
    },
    /// A list that follows its input where it is pumped.
    Proxy {
        name: Named,
        input: Named,
    },
    /// A listener, which is told after those of `after`, and with `echo` tries to write back.
    Listen {
        name: Named,
        list: Named,
        after: NamedList,
        echo: bool,
    },
    /// A writer begins.
    Writer,
    /// A section of the writer begins; its commands follow.
    Section,
    /// Inserts at the end.
    Add {
        list: Named,
        value: Value,
    },
    /// Inserts all of them at the end.
    AddAll {
        list: Named,
        values: Values,
    },
    Insert {
        list: Named,
        index: u32,
        value: Value,
    },
    Set {
        list: Named,
        index: u32,
        value: Value,
    },
    Remove {
        list: Named,
        index: u32,
    },
    /// Deletes all elements.
    Clear {
        list: Named,
    },
    /// Gives a filter a new matcher.
    Match {
        list: Named,
        matcher: Matcher,
    },
    /// Gives a sorted, unique or grouping list a new order.
    Order {
        list: Named,
        order: Order,
    },
    /// Gives a range new bounds.
    Bounds {
        list: Named,
        bounds: Bounds,
    },
    /// Gives a function list a new function.
    Apply {
        list: Named,
        func: Func,
    },
    /// Gives a composite one more member, at the end.
    Attach {
        list: Named,
        member: Named,
    },
    /// Takes the member at the index out of a composite.
    Detach {
        list: Named,
        index: u32,
    },
    Begin {
        list: Named,
    },
    Commit {
        list: Named,
    },
    Rollback {
        list: Named,
    },
    Freeze {
        list: Named,
    },
    Thaw {
        list: Named,
    },
    /// Reports what the list shows.
    Show {
        list: Named,
    },
}

/// A line and its number in the text, from 1 on.
#[derive(Drop)]
pub struct NumberedLine {
    pub line: u64,
    pub what: Line,
}

/// The lines of a text, in their order.
pub type Lines = Items<NumberedLine>;
