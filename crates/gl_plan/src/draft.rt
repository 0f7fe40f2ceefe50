//! A plan that grows part by part.

ghost use Rattle.std.specs.Prelude.{◌≡◌, [], ◌∷◌, ◌++◌, IfOk};
ghost use Rattle.spec_plans.specs.Making.{empty_plan, with_part, with_last};

use crate::alike::Alike;
use gl_lines::{Command, ListDecl, ListenerDecl};
use gl_value::Items;
use spec_plans::Part;
use std::alloc::{AllocError, Global};
use std::marker::Model;

pub(crate) type Section = Items<Command>;

pub(crate) type Sections = Items<Section>;

/// What a plan holds, as data.
#[derive(Drop)]
pub(crate) struct Draft {
    pub(crate) alloc: Global,
    pub(crate) limit: u64,
    pub(crate) lists: Items<ListDecl>,
    pub(crate) listeners: Items<ListenerDecl>,
    pub(crate) writers: Items<Sections>,
}

impl Model for Draft {
    ghost use Rattle.spec_plans.specs.Plan.{Plan as PlanData};
    ghost use Rattle.std.specs.Coded.{codes};
    ghost use Rattle.spec_lang.specs.Code.{tree_code};
    ghost use Rattle.spec_lang.specs.MatcherCode.{matcher_code};
    ghost use Rattle.spec_lang.specs.FuncCode.{func_code};

    ghost Value = { PlanData };

    ghost coded = { Prim.hlevel (codes, tree_code, matcher_code, func_code) };

    ghost view = { λ d. record { limit = d.limit; lists = d.lists; listeners = d.listeners; writers = d.writers } };
}

impl Draft {
    /// The plan of no lines, which takes no memory.
    pub(crate) fn new(alloc: Global) -> Draft
        ensures { result ≡ empty_plan }
    {
        Draft {
            alloc,
            limit: 16_777_216,
            lists: Items::new(alloc),
            listeners: Items::new(alloc),
            writers: Items::new(alloc),
        }
    }

    /// The plan with a part more. It is given up where memory runs out.
    pub(crate) fn with(mut self, part: Part) -> Result<Draft, AllocError>
        ensures { IfOk result (λ more. more ≡ with_part self part) }
    {
        match part {
            Part::Limit(limit) => {
                self.limit = limit;
                Ok(self)
            }
            Part::List(list) => {
                self.lists = with_item(self.lists, list)?;
                Ok(self)
            }
            Part::Listener(listener) => {
                self.listeners = with_item(self.listeners, listener)?;
                Ok(self)
            }
            Part::Writer => {
                self.writers = with_item(self.writers, Items::new(self.alloc))?;
                Ok(self)
            }
            Part::Section => {
                self.writers = with_section(self.alloc, self.writers)?;
                Ok(self)
            }
            Part::Command(command) => {
                self.writers = with_command(self.writers, command)?;
                Ok(self)
            }
            Part::Elsewhere => Ok(self),
        }
    }
}

impl Alike for Draft {
    fn is_same(&self, other: &Draft) -> bool {
        self.limit == other.limit
            && self.lists.is_same(&other.lists)
            && self.listeners.is_same(&other.listeners)
            && self.writers.is_same(&other.writers)
    }
}

fn with_item<T: Drop>(items: Items<T>, item: T) -> Result<Items<T>, AllocError>
    ensures { IfOk result (λ all. all ≡ items ++ item ∷ []) }
{
    let mut all = items.into_vec();
    all.push(item)?;
    Ok(Items::from_vec(all))
}

// The writers with a section more of the last of them; no writers have none to change.
#[tactic(auto, using(spec_plans::proofs::Lasts::with_last_end))]
fn with_section(alloc: Global, writers: Items<Sections>) -> Result<Items<Sections>, AllocError>
    ensures { IfOk result (λ all. all ≡ with_last (λ sections. sections ++ [] ∷ []) writers) }
{
    let mut others = writers.into_vec();
    match others.pop() {
        None => Ok(Items::from_vec(others)),
        Some(last) => with_item(Items::from_vec(others), with_item(last, Items::new(alloc))?),
    }
}

// The writers with a command more in the last section of the last of them.
#[tactic(auto, using(spec_plans::proofs::Lasts::with_last_end))]
fn with_command(writers: Items<Sections>, command: Command) -> Result<Items<Sections>, AllocError>
    ensures { IfOk result
        (λ all. all ≡ with_last (with_last (λ commands. commands ++ command ∷ [])) writers) }
{
    let mut others = writers.into_vec();
    match others.pop() {
        None => Ok(Items::from_vec(others)),
        Some(last) => with_item(Items::from_vec(others), with_last_command(last, command)?),
    }
}

// The sections with a command more in the last of them.
#[tactic(auto, using(spec_plans::proofs::Lasts::with_last_end))]
fn with_last_command(sections: Sections, command: Command) -> Result<Sections, AllocError>
    ensures { IfOk result (λ all. all ≡ with_last (λ commands. commands ++ command ∷ []) sections) }
{
    let mut others = sections.into_vec();
    match others.pop() {
        None => Ok(Items::from_vec(others)),
        Some(last) => with_item(Items::from_vec(others), with_item(last, command)?),
    }
}
