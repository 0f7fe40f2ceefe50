//! What the names of known lines stand for.

ghost use Rattle.std.specs.Prelude.{◌≡◌, ◌≤◌, false, length, option_map, slice_get, unwrap_or, IfOk};
ghost use Rattle.spec_order.specs.DependencyOrder.{has};
ghost use Rattle.spec_plans.specs.Names.{heads, hearers, list_names, listener_names, number_of, class_of, depends_on, is_over_proxy};
ghost use Rattle.gl_plan_faults.specs.Known.{IsKnown};

use crate::known::Known;
use crate::listed::Listed;
use crate::marks::is_marked;
use crate::tables::{listed, names_of_listeners, names_of_lists, over_proxies};
use gl_lines::NumberedLine;
use gl_value::Name;
use spec_plans::ListClass;
use std::alloc::{AllocError, Global};

impl<'a> Known<'a> {
    /// The lines with their tables.
    pub(crate) fn new(alloc: Global, lines: &'a [NumberedLine]) -> Result<Known<'a>, AllocError>
        requires lists { length (heads lines.now) ≤ 256 }
        requires listeners { length (hearers lines.now) ≤ 256 }
        ensures tables { IfOk result IsKnown }
        ensures lines { IfOk result (λ known. known.lines.now ≡ lines.now) }
    {
        let names = names_of_lists(alloc, lines)?;
        let listeners = names_of_listeners(alloc, lines)?;
        let lists = listed(alloc, lines, &names)?;
        let over_proxy = over_proxies(alloc, lines, lists.as_slice())?;
        Ok(Known {
            lines,
            names,
            listeners,
            lists,
            over_proxy,
        })
    }

    /// The number of a list.
    pub(crate) fn list_number(&self, name: &Name) -> Option<u32>
        requires { IsKnown self.now }
        ensures { result ≡ number_of (list_names self.now.lines.now) name.now }
    {
        self.names.number(name)
    }

    /// The number of a listener.
    pub(crate) fn listener_number(&self, name: &Name) -> Option<u32>
        requires { IsKnown self.now }
        ensures { result ≡ number_of (listener_names self.now.lines.now) name.now }
    {
        self.listeners.number(name)
    }

    /// The class of the list of a name.
    #[tactic(auto, using(crate::proofs::Finds::class_none))]
    pub(crate) fn class(&self, name: &Name) -> Option<ListClass>
        requires { IsKnown self.now }
        ensures { result ≡ class_of self.now.lines.now name.now }
    {
        match self.names.number(name) {
            Some(number) => class_at(self.lists.as_slice(), number),
            None => None,
        }
    }

    /// Whether a list depends on another.
    pub(crate) fn depends_on(&self, list: u32, other: u32) -> bool
        requires { IsKnown self.now }
        ensures { result ≡ depends_on self.now.lines.now list other }
    {
        needs_at(self.lists.as_slice(), list, other)
    }

    /// Whether a list is a proxy or depends on one.
    pub(crate) fn is_over_proxy(&self, list: usize) -> bool
        requires { IsKnown self.now }
        ensures { result ≡ is_over_proxy self.now.lines.now list }
    {
        is_marked(self.over_proxy.as_slice(), list)
    }
}

fn class_at(lists: &[Listed], number: u32) -> Option<ListClass>
    ensures { result ≡ option_map (λ list. list.class) (slice_get lists.now number) }
{
    match lists.get(number as usize) {
        Some(list) => Some(list.class),
        None => None,
    }
}

// Whether the list of a number depends on another.
fn needs_at(lists: &[Listed], number: u32, other: u32) -> bool
    ensures { result
        ≡ unwrap_or (option_map (λ list. has list.needs other) (slice_get lists.now number)) false }
{
    match lists.get(number as usize) {
        Some(list) => list.needs.has(other),
        None => false,
    }
}
