//! What is wrong with the names of a line.

ghost use Rattle.std.specs.Prelude.{◌≡◌, if◌then◌else◌, None, take, unwrap_or, option_and_then, option_copied};
ghost use Rattle.std.specs.Option.{option_or};
ghost use Rattle.spec_plans.specs.Names.{list_names, listener_names};
ghost use Rattle.spec_plans.specs.NameFaults.{wrong, class_number, meets, use_fault, after_fault, first_fault, taken_fault, proxy_fault, shuns_proxies, is_undone, input_need, list_fault, listener_fault, member_fault, attach_fault, name_fault};
ghost use Rattle.gl_plan_faults.specs.Seen.{head_seen, hearer_seen};
ghost use Rattle.gl_plan_faults.specs.Known.{IsKnown};
ghost use Rattle.gl_plan_faults.specs.Passed.{HasPassed, again_fault, is_early};

use crate::known::Known;
use crate::line::{ListHead, ListenerHead, attached, commanded, fed, list_head, listener_head};
use crate::passed::Passed;
use gl_lines::{Line, Named, PlanKind};
use spec_plans::{ListClass, NameFault};

fn wrong(named: &Named, kind: PlanKind) -> Option<NameFault>
    ensures { result ≡ wrong named.now kind }
{
    Some(NameFault {
        column: named.column,
        kind,
    })
}

fn class_number(class: ListClass) -> u8
    ensures { result ≡ class_number class }
{
    match class {
        ListClass::Edited => 0,
        ListClass::Filtered => 1,
        ListClass::Ordered => 2,
        ListClass::Bounded => 3,
        ListClass::Mapped => 4,
        ListClass::Collected => 5,
        ListClass::Composed => 6,
        ListClass::Undone => 7,
        ListClass::Frozen => 8,
        ListClass::Pumped => 9,
    }
}

fn meets(need: Option<ListClass>, class: ListClass) -> bool
    ensures { result ≡ meets need class }
{
    match need {
        None => true,
        Some(need) => class_number(need) == class_number(class),
    }
}

fn use_fault(known: &Known<'_>, need: Option<ListClass>, named: &Named) -> Option<NameFault>
    requires known { IsKnown known.now }
    ensures { result ≡ use_fault known.now.lines.now need named.now }
{
    match known.class(&named.name) {
        None => wrong(named, PlanKind::Unknown),
        Some(class) => {
            if meets(need, class) {
                None
            } else {
                wrong(named, PlanKind::Kind)
            }
        }
    }
}

fn first_use_fault(
    known: &Known<'_>,
    need: Option<ListClass>,
    listed: &[Named],
) -> Option<NameFault>
    requires known { IsKnown known.now }
    ensures { result ≡ first_fault (use_fault known.now.lines.now need) listed.now }
{
    for named in listed {
        if let Some(fault) = use_fault(known, need, named) {
            return Some(fault);
        }
    }
    None
}

fn after_fault(known: &Known<'_>, named: &Named) -> Option<NameFault>
    requires known { IsKnown known.now }
    ensures { result ≡ after_fault known.now.lines.now named.now }
{
    match known.listener_number(&named.name) {
        Some(_) => None,
        None => wrong(named, PlanKind::Unknown),
    }
}

fn first_after_fault(known: &Known<'_>, listed: &[Named]) -> Option<NameFault>
    requires known { IsKnown known.now }
    ensures { result ≡ first_fault (after_fault known.now.lines.now) listed.now }
{
    for named in listed {
        if let Some(fault) = after_fault(known, named) {
            return Some(fault);
        }
    }
    None
}

// A declared list: an earlier line declares its name too.
#[tactic(auto, using(crate::proofs::Early::list_taken))]
fn list_taken_fault(known: &Known<'_>, passed: &Passed, named: &Named) -> Option<NameFault>
    requires known { IsKnown known.now }
    requires passed { HasPassed passed.now known.now.lines.now }
    ensures { result
        ≡ taken_fault (list_names (take passed.now.place known.now.lines.now)) named.now }
{
    if is_early(known.list_number(&named.name), passed.lists) {
        wrong(named, PlanKind::Taken)
    } else {
        None
    }
}

// A declared listener: an earlier line declares its name too.
#[tactic(auto, using(crate::proofs::Early::listener_taken))]
fn listener_taken_fault(known: &Known<'_>, passed: &Passed, named: &Named) -> Option<NameFault>
    requires known { IsKnown known.now }
    requires passed { HasPassed passed.now known.now.lines.now }
    ensures { result
        ≡ taken_fault (listener_names (take passed.now.place known.now.lines.now)) named.now }
{
    if is_early(known.listener_number(&named.name), passed.listeners) {
        wrong(named, PlanKind::Taken)
    } else {
        None
    }
}

// Whether there is a number, below a bound.
fn is_early(number: Option<u32>, bound: usize) -> bool
    ensures { result ≡ is_early number bound }
{
    match number {
        Some(number) => (number as usize) < bound,
        None => false,
    }
}

// A transaction's input: an earlier transaction has it.
fn again_fault(passed: &Passed, named: &Named) -> Option<NameFault>
    ensures { result ≡ again_fault passed.now.undone named.now }
{
    match passed.undone.number(&named.name) {
        Some(_) => wrong(named, PlanKind::Second),
        None => None,
    }
}

fn first_again_fault(passed: &Passed, listed: &[Named]) -> Option<NameFault>
    ensures { result ≡ first_fault (again_fault passed.now.undone) listed.now }
{
    for named in listed {
        if let Some(fault) = again_fault(passed, named) {
            return Some(fault);
        }
    }
    None
}

fn shuns_proxies(class: ListClass) -> bool
    ensures { result ≡ shuns_proxies class }
{
    matches!(class, ListClass::Collected | ListClass::Composed)
}

fn is_undone(class: ListClass) -> bool
    ensures { result ≡ is_undone class }
{
    matches!(class, ListClass::Undone)
}

fn input_need(class: ListClass) -> Option<ListClass>
    ensures { result ≡ input_need class }
{
    if is_undone(class) {
        Some(ListClass::Edited)
    } else {
        None
    }
}

fn proxy_fault(known: &Known<'_>, number: usize, class: ListClass) -> Option<NameFault>
    requires known { IsKnown known.now }
    ensures { result ≡ proxy_fault known.now.lines.now number class }
{
    if shuns_proxies(class) && known.is_over_proxy(number) {
        Some(NameFault {
            column: 1,
            kind: PlanKind::OverProxy,
        })
    } else {
        None
    }
}

// The first of two faults.
fn first(fault: Option<NameFault>, other: Option<NameFault>) -> Option<NameFault>
    ensures { result ≡ option_or fault other }
{
    match fault {
        Some(fault) => Some(fault),
        None => other,
    }
}

// The transactions' inputs that an earlier transaction has.
fn second_fault(passed: &Passed, head: ListHead<'_>) -> Option<NameFault>
    ensures { result
        ≡ (if is_undone head.entry.class
        then first_fault (again_fault passed.now.undone) head.entry.inputs.now else None) }
{
    if is_undone(head.class) {
        first_again_fault(passed, head.inputs)
    } else {
        None
    }
}

/// What is wrong with a line that declares a list.
fn list_fault(known: &Known<'_>, passed: &Passed, head: ListHead<'_>) -> Option<NameFault>
    requires known { IsKnown known.now }
    requires passed { HasPassed passed.now known.now.lines.now }
    ensures { result
        ≡ list_fault known.now.lines.now (take passed.now.place known.now.lines.now)
        (head_seen head.entry) }
{
    let over = proxy_fault(known, passed.lists, head.class);
    let again = first(second_fault(passed, head), over);
    let may = first(first_use_fault(known, None, head.may), again);
    let need = input_need(head.class);
    let inputs = first(first_use_fault(known, need, head.inputs), may);
    first(list_taken_fault(known, passed, head.name), inputs)
}

/// What is wrong with a line that declares a listener.
fn listener_fault(known: &Known<'_>, passed: &Passed, head: ListenerHead<'_>) -> Option<NameFault>
    requires known { IsKnown known.now }
    requires passed { HasPassed passed.now known.now.lines.now }
    ensures { result
        ≡ listener_fault known.now.lines.now (take passed.now.place known.now.lines.now)
        (hearer_seen head.entry) }
{
    let after = first_after_fault(known, head.after);
    let list = first(use_fault(known, None, head.list), after);
    first(listener_taken_fault(known, passed, head.name), list)
}

fn number_or_first(number: Option<u32>) -> u32
    ensures { result ≡ unwrap_or number 0 }
{
    number.unwrap_or(0)
}

fn member_fault(known: &Known<'_>, composite: &Named, member: &Named) -> Option<NameFault>
    requires known { IsKnown known.now }
    ensures { result ≡ member_fault known.now.lines.now composite.now member.now }
{
    let list = number_or_first(known.list_number(&composite.name));
    let other = number_or_first(known.list_number(&member.name));
    if known.depends_on(list, other) {
        None
    } else {
        wrong(member, PlanKind::Member)
    }
}

fn attach_fault(known: &Known<'_>, composite: &Named, member: &Named) -> Option<NameFault>
    requires known { IsKnown known.now }
    ensures { result ≡ attach_fault known.now.lines.now composite.now member.now }
{
    first(
        use_fault(known, None, member),
        member_fault(known, composite, member),
    )
}

// What is wrong with a command, by its list, the class that it needs, and what it attaches.
fn command_fault(
    known: &Known<'_>,
    list: &Named,
    need: Option<ListClass>,
    member: Option<&Named>,
) -> Option<NameFault>
    requires known { IsKnown known.now }
    ensures { result
        ≡ option_or (use_fault known.now.lines.now need list.now)
        (option_and_then (attach_fault known.now.lines.now list.now) (option_copied member.entry)) }
{
    let attaching = match member {
        Some(member) => attach_fault(known, list, member),
        None => None,
    };
    first(use_fault(known, need, list), attaching)
}

/// What is wrong with the names of the next line.
pub(crate) fn name_fault(known: &Known<'_>, passed: &Passed, line: &Line) -> Option<NameFault>
    requires known { IsKnown known.now }
    requires passed { HasPassed passed.now known.now.lines.now }
    ensures { result
        ≡ name_fault known.now.lines.now (take passed.now.place known.now.lines.now) line.now }
{
    let list = match list_head(line) {
        Some(head) => list_fault(known, passed, head),
        None => None,
    };
    let listener = match listener_head(line) {
        Some(head) => listener_fault(known, passed, head),
        None => None,
    };
    let rows = match fed(line) {
        Some(list) => use_fault(known, Some(ListClass::Edited), list),
        None => None,
    };
    let command = match commanded(line) {
        Some((list, need)) => command_fault(known, list, need, attached(line)),
        None => None,
    };
    first(list, first(listener, first(rows, command)))
}
