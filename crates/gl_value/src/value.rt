//! A value: a number, a text or a list of values.

ghost use Rattle.std.specs.Prelude.{◌≡◌, [], IfOk, slice_get};
ghost use Rattle.std.specs.Option.{option_copied};
ghost use Rattle.spec_value.specs.Tree.{num, text, items_of, elements};
ghost use Rattle.gl_value.specs.Shape.{shown};

use crate::items::Items;
use crate::text::Text;
use crate::values::Values;
use std::alloc::AllocError;
use std::marker::Model;
use std::sync::Arc;

/// A value in 16 bytes. Texts and lists are shared by its copies.
#[cycle(value)]
#[derive(Drop)]
pub struct Value {
    node: Node,
}

const _: () = prove!(size_of::<Value>() == 16);

#[cycle(value)]
#[derive(Drop)]
enum Node {
    Num(i64),
    Text(Text),
    Empty,
    Items(Arc<Vec<Value>>),
}

impl Model for Value {
    ghost use Rattle.spec_value.specs.Tree.{Tree, tree_size};
    ghost use Rattle.spec_value.specs.Code.{tree_code};

    ghost Value = { Tree };

    ghost coded = { tree_code };

    ghost use Rattle.gl_value.specs.Node.{tree_of};

    ghost view = { λ v. tree_of v.node };

    ghost size = { tree_size };

    ghost use Rattle.gl_value.specs.Falls.{deep_le-tree_size};

    ghost size_decreases = { λ v h. deep_le-tree_size v.node };
}

/// What a value is made of.
#[derive(Clone, Copy)]
pub enum ValueShape<'a> {
    Num(i64),
    Text(&'a Text),
    Items(&'a [Value]),
}

impl Value {
    /// The empty list, which takes no memory.
    pub fn empty() -> Value
        ensures { result ≡ items_of [] }
    {
        Value { node: Node::Empty }
    }

    /// A number.
    pub fn num(n: i64) -> Value
        ensures { result ≡ num n }
    {
        Value { node: Node::Num(n) }
    }

    /// A text.
    pub fn text(t: Text) -> Value
        ensures { result ≡ text t }
    {
        Value {
            node: Node::Text(t),
        }
    }

    /// The list of these values.
    pub fn items(vs: Values) -> Value
        ensures { result ≡ items_of vs }
    {
        match vs.into_shared() {
            None => Value { node: Node::Empty },
            Some(items) => Value {
                node: Node::Items(items),
            },
        }
    }

    /// What the value is made of. It takes one step.
    pub fn shape(&self) -> ValueShape<'_>
        ensures { shown result ≡ self.now }
    {
        match &self.node {
            Node::Num(n) => ValueShape::Num(*n),
            Node::Text(t) => ValueShape::Text(t),
            Node::Empty => ValueShape::Items(&[]),
            Node::Items(items) => ValueShape::Items(items.as_slice()),
        }
    }

    /// The elements of a list, in order; a number and a text have none.
    pub fn elements(&self) -> &[Value]
        ensures { result.now ≡ elements self.now }
    {
        match self.shape() {
            ValueShape::Items(vs) => vs,
            _ => &[],
        }
    }

    /// The element of a list at a place, or `None` where there is none.
    pub fn element(&self, position: usize) -> Option<&Value>
        ensures { option_copied result ≡ slice_get (elements self.now) position }
    {
        self.elements().get(position)
    }

    /// An equal value, which costs one step however large the value: both share its texts and lists. It takes no
    /// memory, and fails only where 2^63 copies are alive.
    pub fn copy(&self) -> Result<Value, AllocError>
        ensures { IfOk result (λ v. v ≡ self.now) }
    {
        let node = match &self.node {
            Node::Num(n) => Node::Num(*n),
            Node::Text(t) => Node::Text(t.copy()?),
            Node::Empty => Node::Empty,
            Node::Items(items) => Node::Items(Arc::try_clone(items)?),
        };
        Ok(Value { node })
    }
}

// Values, texts and lists under construction may be handed to other threads and read by several at once.
fn crosses<T: Send + Sync>() {}

fn all_cross() {
    crosses::<Value>();
    crosses::<Text>();
    crosses::<Values>();
    crosses::<Items<Value>>();
}
