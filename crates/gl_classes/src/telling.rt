//! Steps from one touched key to the next.

ghost use Rattle.std.specs.Prelude.{◌≡◌, ◌+◌, ◌≤◌};
ghost use Rattle.spec_classes.specs.Slots.{kept_before, after_one};
ghost use Rattle.gl_classes.specs.InTurn.{IsNext};

use spec_classes::Slot;

/// How far both lists are told: of how many of their classes, in key order.
#[derive(Clone, Copy)]
pub struct Reached {
    pub olds: usize,
    pub news: usize,
}

// Where the next class stands, once the one of a touched key is told, if it has one.
fn after_one<C: Copy>(at: usize, class: Option<C>) -> usize
    requires { at ≤ 2147483647 }
    ensures { result ≡ after_one at class }
{
    match class {
        Some(_) => at + 1,
        None => at,
    }
}

impl Reached {
    /// Nothing is told yet.
    pub fn start() -> Reached
        ensures olds { result.olds ≡ 0 }
        ensures news { result.news ≡ 0 }
    {
        Reached { olds: 0, news: 0 }
    }

    /// How many classes are kept before a touched key.
    pub fn kept_before(self, slot: Slot) -> usize
        requires { IsNext self.olds self.news slot }
        ensures { result ≡ kept_before self.olds self.news slot }
    {
        match slot.old {
            Some(class) => class.index - self.olds,
            None => match slot.new {
                Some(class) => class.index - self.news,
                None => 0,
            },
        }
    }

    /// Past so many classes that are kept, and those of a touched key.
    pub fn past(self, kept: usize, slot: Slot) -> Reached
        requires olds { self.olds + kept ≤ 2147483647 }
        requires news { self.news + kept ≤ 2147483647 }
        ensures olds { result.olds ≡ after_one (self.olds + kept) slot.old }
        ensures news { result.news ≡ after_one (self.news + kept) slot.new }
    {
        Reached {
            olds: after_one(self.olds + kept, slot.old),
            news: after_one(self.news + kept, slot.new),
        }
    }
}
