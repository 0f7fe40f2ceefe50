//! What lines declare, and what they are about.

ghost use Rattle.std.specs.Prelude.{◌≡◌, [], ◌∷◌, option_map};
ghost use Rattle.std.specs.Option.{option_copied};
ghost use Rattle.spec_plans.specs.Lines.{head_of, hearer_of, fed_by, commanded_by, attached_by, is_limit, is_end, is_writer, is_section, is_list, is_listener, is_command, is_declaration};
ghost use Rattle.gl_plan_faults.specs.Seen.{head_seen, hearer_seen};

use gl_lines::{Line, Named};
use spec_plans::ListClass;
use std::slice;

/// The head of a line that declares a list.
#[derive(Clone, Copy)]
pub(crate) struct ListHead<'a> {
    pub(crate) name: &'a Named,
    pub(crate) class: ListClass,
    /// The input, or the opening members.
    pub(crate) inputs: &'a [Named],
    /// The lists that may become members too.
    pub(crate) may: &'a [Named],
}

/// The head of a line that declares a listener.
#[derive(Clone, Copy)]
pub(crate) struct ListenerHead<'a> {
    pub(crate) name: &'a Named,
    pub(crate) list: &'a Named,
    pub(crate) after: &'a [Named],
}

/// The head of a line that declares a list.
pub(crate) fn list_head(line: &Line) -> Option<ListHead<'_>>
    ensures { option_map head_seen result ≡ head_of line.now }
{
    let head = match line {
        Line::Source { name } => over(name, ListClass::Edited, &[]),
        Line::Filter { name, input, .. } => over_one(name, ListClass::Filtered, input),
        Line::Sorted { name, input, .. } => over_one(name, ListClass::Ordered, input),
        Line::Unique { name, input, .. } => over_one(name, ListClass::Ordered, input),
        Line::Grouping { name, input, .. } => over_one(name, ListClass::Ordered, input),
        Line::Range { name, input, .. } => over_one(name, ListClass::Bounded, input),
        Line::Function { name, input, .. } => over_one(name, ListClass::Mapped, input),
        Line::Collection { name, input, .. } => over_one(name, ListClass::Collected, input),
        Line::Composite { name, members, may } => ListHead {
            name,
            class: ListClass::Composed,
            inputs: members.as_slice(),
            may: may.as_slice(),
        },
        Line::Transaction { name, input } => over_one(name, ListClass::Undone, input),
        Line::Freezable { name, input } => over_one(name, ListClass::Frozen, input),
        Line::Proxy { name, input } => over_one(name, ListClass::Pumped, input),
        _ => return None,
    };
    Some(head)
}

fn over<'a>(name: &'a Named, class: ListClass, inputs: &'a [Named]) -> ListHead<'a>
    ensures name { result.name.now ≡ name.now }
    ensures class { result.class ≡ class }
    ensures inputs { result.inputs.now ≡ inputs.now }
    ensures may { result.may.now ≡ [] }
{
    ListHead {
        name,
        class,
        inputs,
        may: &[],
    }
}

fn over_one<'a>(name: &'a Named, class: ListClass, input: &'a Named) -> ListHead<'a>
    ensures name { result.name.now ≡ name.now }
    ensures class { result.class ≡ class }
    ensures inputs { result.inputs.now ≡ input.now ∷ [] }
    ensures may { result.may.now ≡ [] }
{
    over(name, class, slice::from_ref(input))
}

/// The head of a line that declares a listener.
pub(crate) fn listener_head(line: &Line) -> Option<ListenerHead<'_>>
    ensures { option_map hearer_seen result ≡ hearer_of line.now }
{
    match line {
        Line::Listen {
            name,
            list,
            after,
            ..
        } => Some(ListenerHead {
            name,
            list,
            after: after.as_slice(),
        }),
        _ => None,
    }
}

/// The source whose opening elements a line gives.
pub(crate) fn fed(line: &Line) -> Option<&Named>
    ensures { option_copied result ≡ fed_by line.now }
{
    match line {
        Line::Row { list, .. } | Line::Csv { list } => Some(list),
        _ => None,
    }
}

/// The list that a command is about, and the class that it needs to be of.
pub(crate) fn commanded(line: &Line) -> Option<(&Named, Option<ListClass>)>
    ensures { option_map (λ about. (about.0.now, about.1)) result ≡ commanded_by line.now }
{
    let about = match line {
        Line::Add { list, .. } => (list, Some(ListClass::Edited)),
        Line::AddAll { list, .. } => (list, Some(ListClass::Edited)),
        Line::Insert { list, .. } => (list, Some(ListClass::Edited)),
        Line::Set { list, .. } => (list, Some(ListClass::Edited)),
        Line::Remove { list, .. } => (list, Some(ListClass::Edited)),
        Line::Clear { list } => (list, Some(ListClass::Edited)),
        Line::Match { list, .. } => (list, Some(ListClass::Filtered)),
        Line::Order { list, .. } => (list, Some(ListClass::Ordered)),
        Line::Bounds { list, .. } => (list, Some(ListClass::Bounded)),
        Line::Apply { list, .. } => (list, Some(ListClass::Mapped)),
        Line::Attach { list, .. } => (list, Some(ListClass::Composed)),
        Line::Detach { list, .. } => (list, Some(ListClass::Composed)),
        Line::Begin { list } => (list, Some(ListClass::Undone)),
        Line::Commit { list } => (list, Some(ListClass::Undone)),
        Line::Rollback { list } => (list, Some(ListClass::Undone)),
        Line::Freeze { list } => (list, Some(ListClass::Frozen)),
        Line::Thaw { list } => (list, Some(ListClass::Frozen)),
        Line::Show { list } => (list, None),
        _ => return None,
    };
    Some(about)
}

/// The list that a line attaches to a composite.
pub(crate) fn attached(line: &Line) -> Option<&Named>
    ensures { option_copied result ≡ attached_by line.now }
{
    match line {
        Line::Attach { member, .. } => Some(member),
        _ => None,
    }
}

pub(crate) fn is_limit(line: &Line) -> bool
    ensures { result ≡ is_limit line.now }
{
    matches!(line, Line::Limit { .. })
}

pub(crate) fn is_end(line: &Line) -> bool
    ensures { result ≡ is_end line.now }
{
    matches!(line, Line::EndCsv)
}

pub(crate) fn is_writer(line: &Line) -> bool
    ensures { result ≡ is_writer line.now }
{
    matches!(line, Line::Writer)
}

pub(crate) fn is_section(line: &Line) -> bool
    ensures { result ≡ is_section line.now }
{
    matches!(line, Line::Section)
}

pub(crate) fn is_list(line: &Line) -> bool
    ensures { result ≡ is_list line.now }
{
    list_head(line).is_some()
}

pub(crate) fn is_listener(line: &Line) -> bool
    ensures { result ≡ is_listener line.now }
{
    listener_head(line).is_some()
}

pub(crate) fn is_command(line: &Line) -> bool
    ensures { result ≡ is_command line.now }
{
    commanded(line).is_some()
}

/// Whether a line is the limit, or declares a list or a listener, or gives elements of a source.
pub(crate) fn is_declaration(line: &Line) -> bool
    ensures { result ≡ is_declaration line.now }
{
    is_limit(line) || is_list(line) || is_listener(line) || fed(line).is_some()
}
