//! Changes taken in blocks.

ghost use Rattle.std.specs.Prelude.{◌≡◌};
ghost use Rattle.gl_event.specs.Blocks.{is_kind};

/// What a change does, without its values.
#[derive(Clone, Copy)]
pub enum ChangeKind {
    Delete,
    Insert,
    Update,
}

/// Changes of one kind that follow each other: so many of them, from an index on. Deletions all have that index,
/// since what is after them moves up; each insertion or update has the index after the one before. Glazed Lists
/// tells its list events in such blocks.
#[derive(Clone, Copy)]
pub struct Block {
    pub kind: ChangeKind,
    pub start: usize,
    pub count: usize,
}

impl ChangeKind {
    pub(crate) fn is(self, other: ChangeKind) -> bool
        ensures { result ≡ is_kind self other }
    {
        match (self, other) {
            (ChangeKind::Delete, ChangeKind::Delete) => true,
            (ChangeKind::Insert, ChangeKind::Insert) => true,
            (ChangeKind::Update, ChangeKind::Update) => true,
            (ChangeKind::Delete, ChangeKind::Insert | ChangeKind::Update) => false,
            (ChangeKind::Insert, ChangeKind::Delete | ChangeKind::Update) => false,
            (ChangeKind::Update, ChangeKind::Delete | ChangeKind::Insert) => false,
        }
    }
}
