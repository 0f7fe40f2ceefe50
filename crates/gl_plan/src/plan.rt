//! A whole plan.

ghost use Rattle.std.specs.Prelude.{◌≡◌, ◌↔◌, ◌<◌, ◌≤◌, length, IsTrue, IfOk};
ghost use Rattle.std.specs.Arc.{arc_value};
ghost use Rattle.spec_plans.specs.DependencyOrder.{dependency_order};
ghost use Rattle.spec_plans.specs.Plan.{sections_of, commands_of, proxies_of, list_edges, listener_edges};
ghost use Rattle.gl_plan.specs.Whole.{IsWhole};
ghost use Rattle.gl_plan.specs.Contents.{AreContents};

use crate::alike::Alike;
use crate::draft::Draft;
use gl_lines::{Command, ListDecl, ListenerDecl};
use gl_publisher::Numbers;
use gl_value::{Items, Memory};
use std::alloc::Global;
use std::marker::Model;
use std::sync::Arc;

/// A plan: the most elements that a list may have, the lists and the listeners by number, and the sections of the
/// writers. It is well formed, has at most 256 lists, 256 listeners and 64 writers, and none depends on itself through
/// others. Copies share all of it.
#[derive(Drop)]
pub struct Plan {
    shared: Arc<Contents>,
}

/// What a plan holds, and what is computed of it once.
#[derive(Drop)]
pub(crate) struct Contents {
    pub(crate) draft: Draft,
    pub(crate) proxies: Items<u32>,
    pub(crate) list_order: Numbers,
    pub(crate) listener_order: Numbers,
}

impl Model for Plan {
    ghost use Rattle.spec_plans.specs.Plan.{Plan as PlanData};
    ghost use Rattle.std.specs.Arc.{arc_value};
    ghost use Rattle.std.specs.Coded.{codes};
    ghost use Rattle.spec_lang.specs.Code.{tree_code};
    ghost use Rattle.spec_lang.specs.MatcherCode.{matcher_code};
    ghost use Rattle.spec_lang.specs.FuncCode.{func_code};
    ghost use Rattle.gl_plan.specs.Contents.{AreContents};

    ghost Value = { PlanData };

    ghost coded = { Prim.hlevel (codes, tree_code, matcher_code, func_code) };

    ghost view = { λ p. (arc_value p.shared).draft };

    ghost invariant = { λ p. AreContents (arc_value p.shared) };
}

impl Plan {
    // The plan of its contents. It takes memory for the count of its copies, and one step.
    pub(crate) fn new(alloc: Global, contents: Contents) -> Result<Plan, Memory>
        requires { AreContents contents }
        ensures { IfOk result (λ plan. plan ≡ contents.draft) }
    {
        let shared = Arc::new(alloc, contents)?;
        Ok(Plan { shared })
    }

    /// The most elements that a list may have, from 1 to 16,777,216.
    pub fn limit(&self) -> u64
        ensures { result ≡ self.now.limit }
    {
        self.shared.draft.limit
    }

    /// The lists, by number.
    pub fn lists(&self) -> &[ListDecl]
        ensures lists { result.now ≡ self.now.lists }
        ensures plan { IsWhole self.now }
    {
        self.shared.draft.lists.as_slice()
    }

    /// The listeners, by number.
    pub fn listeners(&self) -> &[ListenerDecl]
        ensures listeners { result.now ≡ self.now.listeners }
        ensures plan { IsWhole self.now }
    {
        self.shared.draft.listeners.as_slice()
    }

    /// The numbers of the lists in dependency order: each after those that it depends on, and always the least that
    /// may come next.
    pub fn list_order(&self) -> &[u32]
        ensures { result.now ≡ dependency_order (length self.now.lists) (list_edges self.now) }
    {
        self.shared.list_order.as_slice()
    }

    /// The numbers of the listeners in dependency order: each after those that it is told after.
    pub fn listener_order(&self) -> &[u32]
        ensures { result.now
            ≡ dependency_order (length self.now.listeners) (listener_edges self.now) }
    {
        self.shared.listener_order.as_slice()
    }

    /// How many writers there are.
    pub fn writers(&self) -> u32
        ensures writers { result ≡ length self.now.writers }
        ensures few { result ≤ 64 }
        ensures plan { IsWhole self.now }
    {
        self.shared.draft.writers.len() as u32
    }

    /// How many sections a writer has.
    pub fn sections(&self, writer: u32) -> usize
        requires { writer < length self.now.writers }
        ensures { result ≡ length (sections_of self.now writer) }
    {
        self.shared.draft.writers.as_slice()[writer as usize].len()
    }

    /// The commands of a writer's section.
    pub fn commands(&self, writer: u32, section: usize) -> &[Command]
        requires writer { writer < length self.now.writers }
        requires section { section < length (sections_of self.now writer) }
        ensures { result.now ≡ commands_of self.now writer section }
    {
        let sections = &self.shared.draft.writers.as_slice()[writer as usize];
        sections.as_slice()[section].as_slice()
    }

    /// The numbers of the proxies, rising.
    pub fn proxies(&self) -> &[u32]
        ensures { result.now ≡ proxies_of self.now }
    {
        self.shared.proxies.as_slice()
    }

    /// Whether both are equal. It takes time in proportion to the plan.
    pub fn same(&self, other: &Plan) -> bool
        ensures { IsTrue result ↔ (self.now ≡ other.now) }
    {
        self.shared.draft.is_same(&other.shared.draft)
    }

    /// An equal plan, which takes one step and no memory: both share what they hold. Memory is the answer where there
    /// are too many copies to count.
    pub fn copy(&self, _alloc: Global) -> Result<Plan, Memory>
        ensures { IfOk result (λ p. p ≡ self.now) }
    {
        let shared = Arc::try_clone(&self.shared)?;
        Ok(Plan { shared })
    }
}
