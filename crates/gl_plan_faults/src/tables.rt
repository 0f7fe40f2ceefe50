//! Tables of what lines declare.

ghost use Rattle.std.specs.Prelude.{◌≡◌, ◌≤◌, ◌<◌, ◌^◌, ◌||◌, ◌++◌, ℕ, length, map, option_map, option_to_list, IfOk};
ghost use Rattle.std.specs.List.{list_any};
ghost use Rattle.spec_order.specs.DependencyOrder.{has};
ghost use Rattle.spec_plans.specs.Lines.{head_of, hearer_of};
ghost use Rattle.spec_plans.specs.Names.{heads, hearers, list_names, listener_names, is_over_proxy, is_pumped, numbers_in};
ghost use Rattle.gl_plan_faults.specs.Seen.{head_seen};
ghost use Rattle.gl_plan_faults.specs.Marked.{is_marked};
ghost use Rattle.gl_plan_faults.specs.Marks.{is_reached, AreListed, Lists};

use crate::line::{ListHead, list_head, listener_head};
use crate::listed::Listed;
use crate::marks::is_marked;
use crate::names::NameTable;
use crate::needs::Needs;
use gl_lines::{Line, Named, NumberedLine};
use spec_plans::ListClass;
use std::alloc::{AllocError, Global};

/// The names of the lists, by number. It takes memory for them, and time in proportion to the lines, times a logarithm.
#[tactic(auto, using(crate::proofs::Built::few_lists, crate::proofs::Built::lists_more))]
pub fn names_of_lists(alloc: Global, lines: &[NumberedLine]) -> Result<NameTable, AllocError>
    requires { length (heads lines.now) ≤ 256 }
    ensures { IfOk result (λ table. table ≡ list_names lines.now) }
{
    let mut table = NameTable::new(alloc);
    for line in lines {
        table = with_list(table, &line.what)?;
    }
    Ok(table)
}

// The names with that of a list more, where the line declares one.
fn with_list(table: NameTable, line: &Line) -> Result<NameTable, AllocError>
    requires { length table < 2 ^ 32 }
    ensures { IfOk result
        (λ more. more
        ≡ table ++ option_to_list (option_map (λ h. h.name.name) (head_of line.now))) }
{
    match list_head(line) {
        Some(head) => table.with(&head.name.name),
        None => Ok(table),
    }
}

/// The names of the listeners, by number, as those of the lists.
#[tactic(auto, using(crate::proofs::Built::few_listeners, crate::proofs::Built::listeners_more))]
pub fn names_of_listeners(alloc: Global, lines: &[NumberedLine]) -> Result<NameTable, AllocError>
    requires { length (hearers lines.now) ≤ 256 }
    ensures { IfOk result (λ table. table ≡ listener_names lines.now) }
{
    let mut table = NameTable::new(alloc);
    for line in lines {
        table = with_listener(table, &line.what)?;
    }
    Ok(table)
}

// The names with that of a listener more, where the line declares one.
fn with_listener(table: NameTable, line: &Line) -> Result<NameTable, AllocError>
    requires { length table < 2 ^ 32 }
    ensures { IfOk result
        (λ more. more
        ≡ table ++ option_to_list (option_map (λ h. h.name.name) (hearer_of line.now))) }
{
    match listener_head(line) {
        Some(head) => table.with(&head.name.name),
        None => Ok(table),
    }
}

/// The lists that the lines declare, by their names.
#[tactic(auto, using(crate::proofs::Built::listed_more))]
pub(crate) fn listed(
    alloc: Global,
    lines: &[NumberedLine],
    names: &NameTable,
) -> Result<Vec<Listed>, AllocError>
    requires { names.now ≡ list_names lines.now }
    ensures { IfOk result (λ lists. AreListed lines.now lists.items) }
{
    let mut lists = Vec::new(alloc);
    for line in lines {
        lists = with_listed(alloc, lists, names, &line.what)?;
    }
    Ok(lists)
}

// The lists with one more, where the line declares one.
#[tactic(auto, using(crate::proofs::Built::listed_one, crate::proofs::Built::listed_none))]
fn with_listed(
    alloc: Global,
    mut lists: Vec<Listed>,
    names: &NameTable,
    line: &Line,
) -> Result<Vec<Listed>, AllocError>
    ensures { IfOk result (λ more. Lists names.now lists.items (head_of line.now) more.items) }
{
    match list_head(line) {
        Some(head) => {
            let needs = needs_of(alloc, names, &head)?;
            lists.push(Listed {
                class: head.class,
                needs,
            })?;
            Ok(lists)
        }
        None => Ok(lists),
    }
}

// The numbers of the lists that a list depends on.
fn needs_of(alloc: Global, names: &NameTable, head: &ListHead<'_>) -> Result<Needs, AllocError>
    ensures { IfOk result
        (λ needs. (b : ℕ)
        → has needs b
        ≡ has (numbers_in names.now ((head_seen head.now).inputs ++ (head_seen head.now).may)) b) }
{
    let inputs = with_numbers(Needs::new(alloc), names, head.inputs)?;
    let needs = with_numbers(inputs, names, head.may)?;
    Ok(needs)
}

// Numbers with those of these names.
fn with_numbers(mut needs: Needs, names: &NameTable, listed: &[Named]) -> Result<Needs, AllocError>
    ensures { IfOk result
        (λ more. (b : ℕ) → has more b ≡ (has needs b || has (numbers_in names.now listed.now) b)) }
{
    for named in listed {
        needs = needs.with(names.number(&named.name))?;
    }
    Ok(needs)
}

/// Whether each list is a proxy or depends on one, by number. It goes over the lists as often as there are lists.
#[tactic(auto, using(crate::proofs::Reach::reached_first, crate::proofs::Reach::reached_more, crate::proofs::Reach::reached_all))]
pub(crate) fn over_proxies(
    alloc: Global,
    lines: &[NumberedLine],
    lists: &[Listed],
) -> Result<Vec<bool>, AllocError>
    requires { AreListed lines.now lists.now }
    ensures { IfOk result (λ marks. (a : ℕ) → is_marked marks.items a ≡ is_over_proxy lines.now a) }
{
    let mut marks = reached(alloc, lists, &[])?;
    for _step in lists {
        marks = reached(alloc, lists, marks.as_slice())?;
    }
    Ok(marks)
}

// The lists that are proxies or need a marked one.
fn reached(alloc: Global, lists: &[Listed], marks: &[bool]) -> Result<Vec<bool>, AllocError>
    ensures { IfOk result (λ next. next.items ≡ map (is_reached marks.now) lists.now) }
{
    let mut next = Vec::with_capacity(alloc, lists.len())?;
    for list in lists {
        next.push(is_reached(list, marks))?;
    }
    Ok(next)
}

// Whether a list is a proxy or needs a marked one.
fn is_reached(list: &Listed, marks: &[bool]) -> bool
    ensures { result ≡ is_reached marks.now list.now }
{
    is_proxy(list.class) || needs_marked(list.needs.as_slice(), marks)
}

fn needs_marked(needs: &[u32], marks: &[bool]) -> bool
    ensures { result ≡ list_any (is_marked marks.now) needs.now }
{
    needs
        .iter()
        .any(|number| is_marked(marks, *number as usize))
}

fn is_proxy(class: ListClass) -> bool
    ensures { result ≡ is_pumped class }
{
    matches!(class, ListClass::Pumped)
}
