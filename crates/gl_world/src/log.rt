//! What the entries so far have left to read.

ghost use Rattle.std.specs.Prelude.{◌≡◌, ◌<◌, ◌++◌, ◌∷◌, [], length, OnOk};
ghost use Rattle.std.specs.Vec.{vec_capacity};

use gl_outside::Actor;
use gl_plan::Reply;
use gl_value::{Items, Memory};
use std::alloc::Global;

/// The actors of the entries, and their replies.
#[derive(Drop)]
pub(crate) struct Log {
    pub(crate) order: Vec<Actor>,
    pub(crate) replies: Vec<Items<Reply>>,
}

impl Log {
    /// No entry.
    pub(crate) fn new(alloc: Global) -> Log
        ensures order { result.order.items ≡ [] }
        ensures replies { result.replies.items ≡ [] }
    {
        Log {
            order: Vec::new(alloc),
            replies: Vec::new(alloc),
        }
    }

    /// Makes room for one entry.
    pub(crate) fn reserve(&mut self) -> Result<(), Memory>
        ensures order_room { OnOk result
            (length self.new.order.items < vec_capacity self.new.order) }
        ensures replies_room { OnOk result
            (length self.new.replies.items < vec_capacity self.new.replies) }
        ensures order { self.new.order.items ≡ self.old.order.items }
        ensures replies { self.new.replies.items ≡ self.old.replies.items }
    {
        self.order.reserve(1)?;
        self.replies.reserve(1)
    }

    /// Writes down the next entry. It takes no memory.
    pub(crate) fn add(&mut self, actor: Actor, replies: Items<Reply>)
        requires order_room { length self.old.order.items < vec_capacity self.old.order }
        requires replies_room { length self.old.replies.items < vec_capacity self.old.replies }
        ensures order { self.new.order.items ≡ self.old.order.items ++ actor ∷ [] }
        ensures replies { self.new.replies.items ≡ self.old.replies.items ++ replies ∷ [] }
    {
        self.order.push_reserved(actor);
        self.replies.push_reserved(replies);
    }
}
