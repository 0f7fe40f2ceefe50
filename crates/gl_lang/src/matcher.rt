//! Matchers.

ghost use Rattle.std.specs.Prelude.{◌≡◌, ◌↔◌, ◌+◌, ◌≤◌, length, IfOk, IsTrue};
ghost use Rattle.std.specs.List.{list_all, list_any};
ghost use Rattle.spec_value.specs.Order as order;
ghost use Rattle.spec_lang.specs.Path as path_to;
ghost use Rattle.spec_lang.specs.Matcher as spec;
ghost use Rattle.gl_lang.specs.MatcherShown.{shown, ShowsParts};

use crate::path::{Path, same_path, value_at};
use gl_value::{Items, Steps, Value};
use spec_lang::Test;
use std::alloc::{AllocError, Global};
use std::cmp::Ordering;
use std::marker::Model;
use std::sync::ledger::Ledger;

/// What decides which values are accepted (`Matcher` of Glazed Lists).
#[cycle(matcher)]
#[derive(Drop)]
pub struct Matcher {
    node: Node,
}

#[cycle(matcher)]
#[derive(Drop)]
enum Node {
    All,
    Nothing,
    Is {
        path: Path,
        test: Test,
        literal: Value,
    },
    Not(Box<Matcher>),
    And(Vec<Matcher>),
    Or(Vec<Matcher>),
}

impl Model for Matcher {
    ghost use Rattle.spec_lang.specs.Matcher as spec;
    ghost use Rattle.spec_lang.specs.MatcherCode.{matcher_code};

    ghost Value = { spec.Matcher };

    ghost coded = { matcher_code };

    ghost use Rattle.gl_lang.specs.MatcherNode.{matcher_of, HasParts};

    ghost view = { λ m. matcher_of m.node };

    ghost invariant = { λ m. HasParts m.node };

    ghost size = { spec.matcher_size };

    ghost use Rattle.gl_lang.specs.MatcherFalls.{deep_le-matcher_size};

    ghost size_decreases = { λ m h. deep_le-matcher_size m.node };
}

/// The parts of an `and` or an `or`.
pub type Matchers = Items<Matcher>;

/// What a matcher is made of.
#[derive(Clone, Copy)]
pub enum MatcherShape<'a> {
    All,
    Nothing,
    Is {
        path: &'a Path,
        test: Test,
        literal: &'a Value,
    },
    Not(&'a Matcher),
    And(&'a [Matcher]),
    Or(&'a [Matcher]),
}

impl Matcher {
    /// Accepts everything.
    pub fn all() -> Matcher
        ensures { result ≡ spec.all }
    {
        Matcher { node: Node::All }
    }

    /// Accepts nothing.
    pub fn nothing() -> Matcher
        ensures { result ≡ spec.nothing }
    {
        Matcher {
            node: Node::Nothing,
        }
    }

    /// Accepts where what the path gives passes the test against the literal.
    pub fn is(path: Path, test: Test, literal: Value) -> Matcher
        ensures { result ≡ spec.is path test literal }
    {
        Matcher {
            node: Node::Is {
                path,
                test,
                literal,
            },
        }
    }

    /// Accepts what the part doesn't.
    pub fn not(part: Box<Matcher>) -> Matcher
        ensures { result ≡ spec.negation part.value }
    {
        Matcher {
            node: Node::Not(part),
        }
    }

    /// Accepts what all parts accept.
    pub fn and(parts: Matchers) -> Matcher
        requires { 2 ≤ length parts }
        ensures { result ≡ spec.both (spec.matchers parts) }
    {
        Matcher {
            node: Node::And(parts.into_vec()),
        }
    }

    /// Accepts what some part accepts.
    pub fn or(parts: Matchers) -> Matcher
        requires { 2 ≤ length parts }
        ensures { result ≡ spec.either (spec.matchers parts) }
    {
        Matcher {
            node: Node::Or(parts.into_vec()),
        }
    }

    /// What the matcher is made of. It takes one step.
    pub fn shape(&self) -> MatcherShape<'_>
        ensures value { shown result ≡ self.now }
        ensures parts { ShowsParts result }
    {
        match &self.node {
            Node::All => MatcherShape::All,
            Node::Nothing => MatcherShape::Nothing,
            Node::Is {
                path,
                test,
                literal,
            } => MatcherShape::Is {
                path,
                test: *test,
                literal,
            },
            Node::Not(part) => MatcherShape::Not(part),
            Node::And(parts) => MatcherShape::And(parts.as_slice()),
            Node::Or(parts) => MatcherShape::Or(parts.as_slice()),
        }
    }

    /// Whether the value is accepted, counted as one step. It takes no memory and recurses once a level of the matcher.
    pub fn accepts<L: Ledger>(&self, v: &Value, steps: &mut Steps<L>) -> bool
        ensures value { result ≡ spec.accepts self.now v.now }
        ensures counted { steps.new ≡ steps.old + 1 }
    {
        steps.tick();
        meets(self, v)
    }

    /// The same matcher, in memory of its own.
    pub fn copy(&self, alloc: Global) -> Result<Matcher, AllocError>
        ensures { IfOk result (λ m. m ≡ self.now) }
    {
        copied(alloc, self)
    }

    /// Whether both are written the same.
    pub fn same(&self, other: &Matcher) -> bool
        ensures { IsTrue result ↔ (self.now ≡ other.now) }
    {
        same_matcher(self, other)
    }
}

#[cycle(meeting)]
fn meets(m: &Matcher, v: &Value) -> bool
    ensures { result ≡ spec.accepts m.now v.now }
{
    match m.shape() {
        MatcherShape::All => true,
        MatcherShape::Nothing => false,
        MatcherShape::Is {
            path,
            test,
            literal,
        } => passes_at(path.as_slice(), v, test, literal),
        MatcherShape::Not(part) => !meets(part, v),
        MatcherShape::And(parts) => all_meet(parts, v),
        MatcherShape::Or(parts) => some_meets(parts, v),
    }
}

#[cycle(meeting)]
fn all_meet(parts: &[Matcher], v: &Value) -> bool
    ensures { result ≡ list_all (λ m. spec.accepts m v.now) parts.now }
{
    for part in parts {
        if !meets(part, v) {
            return false;
        }
    }
    true
}

#[cycle(meeting)]
fn some_meets(parts: &[Matcher], v: &Value) -> bool
    ensures { result ≡ list_any (λ m. spec.accepts m v.now) parts.now }
{
    for part in parts {
        if meets(part, v) {
            return true;
        }
    }
    false
}

fn passes_at(path: &[u16], v: &Value, test: Test, literal: &Value) -> bool
    ensures { result ≡ spec.passes test (order.cmp (path_to.at path.now v.now) literal.now) }
{
    let nothing = Value::empty();
    passes(test, Value::cmp(value_at(path, v, &nothing), literal))
}

fn passes(test: Test, answer: Ordering) -> bool
    ensures { result ≡ spec.passes test answer }
{
    match test {
        Test::Eq => answer.is_eq(),
        Test::Ne => answer.is_ne(),
        Test::Lt => answer.is_lt(),
        Test::Le => answer.is_le(),
        Test::Gt => answer.is_gt(),
        Test::Ge => answer.is_ge(),
    }
}

#[cycle(copying)]
fn copied(alloc: Global, m: &Matcher) -> Result<Matcher, AllocError>
    ensures { IfOk result (λ copy. copy ≡ m.now) }
{
    match &m.node {
        Node::All => Ok(Matcher { node: Node::All }),
        Node::Nothing => Ok(Matcher {
            node: Node::Nothing,
        }),
        Node::Is {
            path,
            test,
            literal,
        } => {
            let path = path.copy(alloc)?;
            let literal = literal.copy()?;
            Ok(Matcher::is(path, *test, literal))
        }
        Node::Not(part) => {
            let part = Box::new(alloc, copied(alloc, part)?)?;
            Ok(Matcher::not(part))
        }
        Node::And(parts) => {
            let parts = copies(alloc, parts.as_slice())?;
            Ok(Matcher {
                node: Node::And(parts),
            })
        }
        Node::Or(parts) => {
            let parts = copies(alloc, parts.as_slice())?;
            Ok(Matcher {
                node: Node::Or(parts),
            })
        }
    }
}

#[cycle(copying)]
fn copies(alloc: Global, parts: &[Matcher]) -> Result<Vec<Matcher>, AllocError>
    ensures { IfOk result (λ copies. copies.items ≡ parts.now) }
{
    let mut own = Vec::with_capacity(alloc, parts.len())?;
    for part in parts {
        own.push(copied(alloc, part)?)?;
    }
    Ok(own)
}

#[cycle(sameness)]
fn same_matcher(a: &Matcher, b: &Matcher) -> bool
    ensures { IsTrue result ↔ (a.now ≡ b.now) }
{
    match (a.shape(), b.shape()) {
        (MatcherShape::All, MatcherShape::All) => true,
        (MatcherShape::Nothing, MatcherShape::Nothing) => true,
        (
            MatcherShape::Is {
                path,
                test,
                literal,
            },
            MatcherShape::Is {
                path: other_path,
                test: other_test,
                literal: other_literal,
            },
        ) => test == other_test && same_path(path, other_path) && literal.same(other_literal),
        (MatcherShape::Not(m), MatcherShape::Not(n)) => same_matcher(m, n),
        (MatcherShape::And(ms), MatcherShape::And(ns)) => same_parts(ms, ns),
        (MatcherShape::Or(ms), MatcherShape::Or(ns)) => same_parts(ms, ns),
        _ => false,
    }
}

#[cycle(sameness)]
fn same_parts(a: &[Matcher], b: &[Matcher]) -> bool
    ensures { IsTrue result ↔ (a.now ≡ b.now) }
{
    if a.len() != b.len() {
        return false;
    }
    for i in 0..a.len() {
        if !same_matcher(&a[i], &b[i]) {
            return false;
        }
    }
    true
}
