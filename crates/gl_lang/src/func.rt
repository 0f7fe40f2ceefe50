//! Functions.

ghost use Rattle.std.specs.Prelude.{◌≡◌, ◌↔◌, [], ◌∷◌, ◌++◌, pos, map, length, IfOk, OnOk, IsTrue};
ghost use Rattle.spec_value.specs.Tree.{elements};
ghost use Rattle.spec_lang.specs.Path as path_to;
ghost use Rattle.spec_lang.specs.Func as spec;
ghost use Rattle.gl_lang.specs.FuncShown.{shown};

use crate::path::{Path, elements_at, follow, same_path};
use gl_value::{Items, Text, Value, ValueShape, Values};
use std::alloc::{AllocError, Global};
use std::marker::Model;

/// What makes a value of a value (`FunctionList.Function` of Glazed Lists).
#[cycle(func)]
#[derive(Drop)]
pub struct Func {
    node: Node,
}

#[cycle(func)]
#[derive(Drop)]
enum Node {
    At(Path),
    Num(i64),
    Text(Text),
    Count(Path),
    Sum { list: Path, each: Path },
    Add(Box<Func>, Box<Func>),
    Items(Vec<Func>),
}

impl Model for Func {
    ghost use Rattle.spec_lang.specs.Func as spec;
    ghost use Rattle.spec_lang.specs.FuncCode.{func_code};

    ghost Value = { spec.Func };

    ghost coded = { func_code };

    ghost use Rattle.gl_lang.specs.FuncNode.{func_of};

    ghost view = { λ f. func_of f.node };

    ghost size = { spec.func_size };

    ghost use Rattle.gl_lang.specs.FuncFalls.{deep_le-func_size};

    ghost size_decreases = { λ f h. deep_le-func_size f.node };
}

/// The parts of a list.
pub type Funcs = Items<Func>;

/// What a function is made of.
#[derive(Clone, Copy)]
pub enum FuncShape<'a> {
    At(&'a Path),
    Num(i64),
    Text(&'a Text),
    Count(&'a Path),
    Sum { list: &'a Path, each: &'a Path },
    Add(&'a Func, &'a Func),
    Items(&'a [Func]),
}

impl Func {
    /// What the path gives.
    pub fn at(path: Path) -> Func
        ensures { result ≡ spec.at_path path }
    {
        Func {
            node: Node::At(path),
        }
    }

    /// A number.
    pub fn num(n: i64) -> Func
        ensures { result ≡ spec.number n }
    {
        Func { node: Node::Num(n) }
    }

    /// A text.
    pub fn text(t: Text) -> Func
        ensures { result ≡ spec.bytes t }
    {
        Func {
            node: Node::Text(t),
        }
    }

    /// How many elements the path gives.
    pub fn count(path: Path) -> Func
        ensures { result ≡ spec.count path }
    {
        Func {
            node: Node::Count(path),
        }
    }

    /// The sum of what the path `each` gives of the elements of the list.
    pub fn sum(list: Path, each: Path) -> Func
        ensures { result ≡ spec.total list each }
    {
        Func {
            node: Node::Sum { list, each },
        }
    }

    /// The sum of both.
    pub fn add(a: Box<Func>, b: Box<Func>) -> Func
        ensures { result ≡ spec.sum a.value b.value }
    {
        Func {
            node: Node::Add(a, b),
        }
    }

    /// The list of what the parts give.
    pub fn items(parts: Funcs) -> Func
        ensures { result ≡ spec.list (spec.funcs parts) }
    {
        Func {
            node: Node::Items(parts.into_vec()),
        }
    }

    /// What the function is made of. It takes one step.
    pub fn shape(&self) -> FuncShape<'_>
        ensures { shown result ≡ self.now }
    {
        match &self.node {
            Node::At(path) => FuncShape::At(path),
            Node::Num(n) => FuncShape::Num(*n),
            Node::Text(t) => FuncShape::Text(t),
            Node::Count(path) => FuncShape::Count(path),
            Node::Sum { list, each } => FuncShape::Sum { list, each },
            Node::Add(a, b) => FuncShape::Add(a, b),
            Node::Items(parts) => FuncShape::Items(parts.as_slice()),
        }
    }

    /// What the function makes of the value. It takes memory for the result alone and recurses once a level of the
    /// function.
    pub fn eval(&self, alloc: Global, v: &Value) -> Result<Value, AllocError>
        ensures { IfOk result (λ made. made ≡ spec.eval self.now v.now) }
    {
        made(alloc, self, v)
    }

    /// The same function, in memory of its own.
    pub fn copy(&self, alloc: Global) -> Result<Func, AllocError>
        ensures { IfOk result (λ f. f ≡ self.now) }
    {
        copied(alloc, self)
    }

    /// Whether both are written the same.
    pub fn same(&self, other: &Func) -> bool
        ensures { IsTrue result ↔ (self.now ≡ other.now) }
    {
        same_func(self, other)
    }
}

#[cycle(making)]
fn made(alloc: Global, f: &Func, v: &Value) -> Result<Value, AllocError>
    ensures { IfOk result (λ made. made ≡ spec.eval f.now v.now) }
{
    match f.shape() {
        FuncShape::At(path) => copy_at(path.as_slice(), v),
        FuncShape::Num(n) => Ok(Value::num(n)),
        FuncShape::Text(t) => {
            let text = t.copy()?;
            Ok(Value::text(text))
        }
        FuncShape::Count(path) => Ok(Value::num(count_at(path.as_slice(), v))),
        FuncShape::Sum { list, each } => Ok(Value::num(sum_at(
            list.as_slice(),
            each.as_slice(),
            v,
        ))),
        FuncShape::Add(a, b) => {
            let first = made(alloc, a, v)?;
            let second = made(alloc, b, v)?;
            Ok(Value::num(number_of(&first).saturating_add(number_of(&second))))
        }
        FuncShape::Items(parts) => {
            let values = all_made(alloc, parts, v)?;
            Ok(Value::items(values))
        }
    }
}

#[cycle(making)]
fn all_made(alloc: Global, parts: &[Func], v: &Value) -> Result<Values, AllocError>
    ensures { IfOk result (λ values. values ≡ map (λ f. spec.eval f v.now) parts.now) }
{
    let mut values = Values::new(alloc);
    for part in parts {
        let value = made(alloc, part, v)?;
        push(&mut values, value)?;
    }
    Ok(values)
}

fn push(values: &mut Values, value: Value) -> Result<(), AllocError>
    ensures { OnOk result (values.new ≡ values.old ++ value ∷ []) }
{
    match values.push(value) {
        Ok(()) => Ok(()),
        Err((_, e)) => Err(e),
    }
}

fn copy_at(path: &[u16], v: &Value) -> Result<Value, AllocError>
    ensures { IfOk result (λ copy. copy ≡ path_to.at path.now v.now) }
{
    match follow(path, v) {
        Some(found) => found.copy(),
        None => Ok(Value::empty()),
    }
}

fn count_at(path: &[u16], v: &Value) -> i64
    ensures { result ≡ pos (length (elements (path_to.at path.now v.now))) }
{
    elements_at(path, v).len() as i64
}

fn sum_at(list: &[u16], each: &[u16], v: &Value) -> i64
    ensures { result ≡ spec.total_from (pos 0) each.now (elements (path_to.at list.now v.now)) }
{
    let mut total = 0i64;
    for element in elements_at(list, v) {
        total = total.saturating_add(number_at(each, element));
    }
    total
}

fn number_at(path: &[u16], v: &Value) -> i64
    ensures { result ≡ spec.number_of (path_to.at path.now v.now) }
{
    match follow(path, v) {
        Some(found) => number_of(found),
        None => 0,
    }
}

fn number_of(v: &Value) -> i64
    ensures { result ≡ spec.number_of v.now }
{
    match v.shape() {
        ValueShape::Num(n) => n,
        ValueShape::Text(_) => 0,
        ValueShape::Items(_) => 0,
    }
}

#[cycle(copying)]
fn copied(alloc: Global, f: &Func) -> Result<Func, AllocError>
    ensures { IfOk result (λ copy. copy ≡ f.now) }
{
    match f.shape() {
        FuncShape::At(path) => {
            let path = path.copy(alloc)?;
            Ok(Func::at(path))
        }
        FuncShape::Num(n) => Ok(Func::num(n)),
        FuncShape::Text(t) => {
            let text = t.copy()?;
            Ok(Func::text(text))
        }
        FuncShape::Count(path) => {
            let path = path.copy(alloc)?;
            Ok(Func::count(path))
        }
        FuncShape::Sum { list, each } => {
            let list = list.copy(alloc)?;
            let each = each.copy(alloc)?;
            Ok(Func::sum(list, each))
        }
        FuncShape::Add(a, b) => {
            let first = Box::new(alloc, copied(alloc, a)?)?;
            let second = Box::new(alloc, copied(alloc, b)?)?;
            Ok(Func::add(first, second))
        }
        FuncShape::Items(parts) => {
            let parts = copies(alloc, parts)?;
            Ok(Func::items(Items::from_vec(parts)))
        }
    }
}

#[cycle(copying)]
fn copies(alloc: Global, parts: &[Func]) -> Result<Vec<Func>, AllocError>
    ensures { IfOk result (λ copies. copies.items ≡ parts.now) }
{
    let mut own = Vec::with_capacity(alloc, parts.len())?;
    for part in parts {
        own.push(copied(alloc, part)?)?;
    }
    Ok(own)
}

#[cycle(sameness)]
fn same_func(a: &Func, b: &Func) -> bool
    ensures { IsTrue result ↔ (a.now ≡ b.now) }
{
    match (a.shape(), b.shape()) {
        (FuncShape::At(p), FuncShape::At(q)) => same_path(p, q),
        (FuncShape::Num(m), FuncShape::Num(n)) => m == n,
        (FuncShape::Text(s), FuncShape::Text(t)) => s.bytes() == t.bytes(),
        (FuncShape::Count(p), FuncShape::Count(q)) => same_path(p, q),
        (
            FuncShape::Sum { list, each },
            FuncShape::Sum {
                list: other_list,
                each: other_each,
            },
        ) => same_path(list, other_list) && same_path(each, other_each),
        (FuncShape::Add(f, g), FuncShape::Add(h, k)) => same_func(f, h) && same_func(g, k),
        (FuncShape::Items(fs), FuncShape::Items(gs)) => same_parts(fs, gs),
        _ => false,
    }
}

#[cycle(sameness)]
fn same_parts(a: &[Func], b: &[Func]) -> bool
    ensures { IsTrue result ↔ (a.now ≡ b.now) }
{
    if a.len() != b.len() {
        return false;
    }
    for i in 0..a.len() {
        if !same_func(&a[i], &b[i]) {
            return false;
        }
    }
    true
}
