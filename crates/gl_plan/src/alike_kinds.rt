//! Whether two kinds of lists are equal.

ghost use Rattle.std.specs.Prelude.{◌≡◌, ◌↔◌, IsTrue};
ghost use Rattle.gl_lines.specs.declared.plan.ListKind.TheVariants as kinds;

use crate::alike::Alike;
use gl_lang::{Bounds, Func, Kids, Matcher, Order};
use gl_lines::ListKind;
use gl_publisher::Numbers;
use gl_value::Values;

impl Alike for ListKind {
    fn is_same(&self, other: &ListKind) -> bool {
        match self {
            ListKind::Source { rows } => is_source(other, rows),
            ListKind::Filter { input, matcher } => is_filter(other, *input, matcher),
            ListKind::Sorted { input, order } => is_sorted(other, *input, order),
            ListKind::Unique { input, order } => is_unique(other, *input, order),
            ListKind::Grouping { input, order } => is_grouping(other, *input, order),
            ListKind::Range { input, bounds } => is_range(other, *input, *bounds),
            ListKind::Function { input, func } => is_function(other, *input, func),
            ListKind::Collection { input, kids } => is_collection(other, *input, kids),
            ListKind::Composite { members, may } => is_composite(other, members, may),
            ListKind::Transaction { input } => is_transaction(other, *input),
            ListKind::Freezable { input } => is_freezable(other, *input),
            ListKind::Proxy { input } => is_proxy(other, *input),
        }
    }
}

fn is_source(kind: &ListKind, rows: &Values) -> bool
    ensures { IsTrue result ↔ (kinds.Source rows.now ≡ kind.now) }
{
    match kind {
        ListKind::Source { rows: other_rows } => rows.is_same(other_rows),
        _ => false,
    }
}

fn is_filter(kind: &ListKind, input: u32, matcher: &Matcher) -> bool
    ensures { IsTrue result ↔ (kinds.Filter input matcher.now ≡ kind.now) }
{
    match kind {
        ListKind::Filter {
            input: other_input,
            matcher: other_matcher,
        } => input == *other_input && matcher.same(other_matcher),
        _ => false,
    }
}

fn is_sorted(kind: &ListKind, input: u32, order: &Order) -> bool
    ensures { IsTrue result ↔ (kinds.Sorted input order.now ≡ kind.now) }
{
    match kind {
        ListKind::Sorted {
            input: other_input,
            order: other_order,
        } => input == *other_input && order.same(other_order),
        _ => false,
    }
}

fn is_unique(kind: &ListKind, input: u32, order: &Order) -> bool
    ensures { IsTrue result ↔ (kinds.Unique input order.now ≡ kind.now) }
{
    match kind {
        ListKind::Unique {
            input: other_input,
            order: other_order,
        } => input == *other_input && order.same(other_order),
        _ => false,
    }
}

fn is_grouping(kind: &ListKind, input: u32, order: &Order) -> bool
    ensures { IsTrue result ↔ (kinds.Grouping input order.now ≡ kind.now) }
{
    match kind {
        ListKind::Grouping {
            input: other_input,
            order: other_order,
        } => input == *other_input && order.same(other_order),
        _ => false,
    }
}

fn is_range(kind: &ListKind, input: u32, bounds: Bounds) -> bool
    ensures { IsTrue result ↔ (kinds.Range input bounds ≡ kind.now) }
{
    match kind {
        ListKind::Range {
            input: other_input,
            bounds: other_bounds,
        } => input == *other_input && bounds == *other_bounds,
        _ => false,
    }
}

fn is_function(kind: &ListKind, input: u32, func: &Func) -> bool
    ensures { IsTrue result ↔ (kinds.Function input func.now ≡ kind.now) }
{
    match kind {
        ListKind::Function {
            input: other_input,
            func: other_func,
        } => input == *other_input && func.same(other_func),
        _ => false,
    }
}

fn is_collection(kind: &ListKind, input: u32, kids: &Kids) -> bool
    ensures { IsTrue result ↔ (kinds.Collection input kids.now ≡ kind.now) }
{
    match kind {
        ListKind::Collection {
            input: other_input,
            kids: other_kids,
        } => input == *other_input && kids.same(other_kids),
        _ => false,
    }
}

fn is_composite(kind: &ListKind, members: &Numbers, may: &Numbers) -> bool
    ensures { IsTrue result ↔ (kinds.Composite members.now may.now ≡ kind.now) }
{
    match kind {
        ListKind::Composite {
            members: other_members,
            may: other_may,
        } => members.is_same(other_members) && may.is_same(other_may),
        _ => false,
    }
}

fn is_transaction(kind: &ListKind, input: u32) -> bool
    ensures { IsTrue result ↔ (kinds.Transaction input ≡ kind.now) }
{
    match kind {
        ListKind::Transaction { input: other_input } => input == *other_input,
        _ => false,
    }
}

fn is_freezable(kind: &ListKind, input: u32) -> bool
    ensures { IsTrue result ↔ (kinds.Freezable input ≡ kind.now) }
{
    match kind {
        ListKind::Freezable { input: other_input } => input == *other_input,
        _ => false,
    }
}

fn is_proxy(kind: &ListKind, input: u32) -> bool
    ensures { IsTrue result ↔ (kinds.Proxy input ≡ kind.now) }
{
    match kind {
        ListKind::Proxy { input: other_input } => input == *other_input,
        _ => false,
    }
}
