//! One change of a list.

ghost use Rattle.std.specs.Prelude.{◌≡◌, ◌==◌, ◌&&◌};
ghost use Rattle.gl_event.specs.Blocks.{is_kind, kind_of, index_of};
ghost use Rattle.gl_event.specs.Changes.{change_ref};

use crate::block::ChangeKind;
use gl_value::Value;

/// A change of a list at an index, by the values that it tells. The names are those of the change types of a list event
/// in Glazed Lists.
#[derive(Clone, Copy)]
pub enum Change<'a> {
    Delete {
        at: usize,
        old: &'a Value,
    },
    Insert {
        at: usize,
        new: &'a Value,
    },
    Update {
        at: usize,
        old: &'a Value,
        new: &'a Value,
    },
}

impl Change<'_> {
    pub(crate) fn kind(&self) -> ChangeKind
        ensures { result ≡ kind_of (change_ref self.now) }
    {
        match self {
            Change::Delete { at: _, old: _ } => ChangeKind::Delete,
            Change::Insert { at: _, new: _ } => ChangeKind::Insert,
            Change::Update {
                at: _,
                old: _,
                new: _,
            } => ChangeKind::Update,
        }
    }

    pub(crate) fn index(&self) -> usize
        ensures { result ≡ index_of (change_ref self.now) }
    {
        match self {
            Change::Delete { at, old: _ } => *at,
            Change::Insert { at, new: _ } => *at,
            Change::Update { at, old: _, new: _ } => *at,
        }
    }

    // Whether it is of a kind and at an index.
    pub(crate) fn goes_on(&self, kind: ChangeKind, at: usize) -> bool
        ensures { result
            ≡ (is_kind (kind_of (change_ref self.now)) kind
            && (index_of (change_ref self.now) == at)) }
    {
        self.kind().is(kind) && self.index() == at
    }
}
