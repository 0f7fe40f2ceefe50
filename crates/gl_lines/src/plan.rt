//! What a plan declares, and what its writers ask for.

use gl_lang::{Bounds, Func, Kids, Matcher, Order};
use gl_publisher::Numbers;
use gl_value::{Name, Value, Values};

/// What a list is, with what it opens with. Other lists are named by their numbers.
#[derive(Drop)]
pub enum ListKind {
    /// A list that commands edit. The rows are its opening elements.
    Source { rows: Values },
    /// The elements that the matcher accepts.
    Filter { input: u32, matcher: Matcher },
    /// The elements in the order.
    Sorted { input: u32, order: Order },
    /// The first element of each class of the order.
    Unique { input: u32, order: Order },
    /// The classes of the order, each as the list of its elements.
    Grouping { input: u32, order: Order },
    /// The elements at the places within the bounds.
    Range { input: u32, bounds: Bounds },
    /// What the function makes of each element.
    Function { input: u32, func: Func },
    /// The children of each element, one after another.
    Collection { input: u32, kids: Kids },
    /// The opening members one after another, and the lists that may become members too.
    Composite { members: Numbers, may: Numbers },
    /// A list over a source whose changes can be held and taken back.
    Transaction { input: u32 },
    /// A list that can be frozen; it opens free.
    Freezable { input: u32 },
    /// A list that follows its input where it is pumped.
    Proxy { input: u32 },
}

/// A list of a plan.
#[derive(Drop)]
pub struct ListDecl {
    pub name: Name,
    pub kind: ListKind,
}

/// A listener of a plan: it is told of the list's changes after the listeners of `after`, and with `echo` tries to
/// write back.
#[derive(Drop)]
pub struct ListenerDecl {
    pub name: Name,
    pub list: u32,
    pub after: Numbers,
    pub echo: bool,
}

/// A command of a section. Lists are named by their numbers, and elements by their places from 0 on.
#[derive(Drop)]
pub enum Command {
    /// Inserts at the end.
    Add { list: u32, value: Value },
    /// Inserts all of them at the end.
    AddAll { list: u32, values: Values },
    Insert { list: u32, index: u32, value: Value },
    Set { list: u32, index: u32, value: Value },
    Remove { list: u32, index: u32 },
    /// Deletes all elements.
    Clear { list: u32 },
    /// Gives a filter a new matcher.
    Match { list: u32, matcher: Matcher },
    /// Gives a sorted, unique or grouping list a new order.
    Order { list: u32, order: Order },
    /// Gives a range new bounds.
    Bounds { list: u32, bounds: Bounds },
    /// Gives a function list a new function.
    Apply { list: u32, func: Func },
    /// Gives a composite one more member, at the end.
    Attach { list: u32, member: u32 },
    /// Takes the member at the index out of a composite.
    Detach { list: u32, index: u32 },
    Begin { list: u32 },
    Commit { list: u32 },
    Rollback { list: u32 },
    Freeze { list: u32 },
    Thaw { list: u32 },
    /// Reports what the list shows.
    Show { list: u32 },
}
