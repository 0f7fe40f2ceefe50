//! What a log edits.

ghost use Rattle.std.specs.Prelude.{◌≡◌, ◌+◌, ◌*◌, ◌^◌, ◌<◌, ◌≤◌, length, OnOk, insert, remove, slice_get, slice_set, Some};
ghost use Rattle.gl_kernel.specs.Edits.{Fits};

use std::alloc::AllocError;

/// A list that is edited by place in room that it has, so that no edit takes memory.
pub trait Editable {
    type Item: Drop;

    ghost use Rattle.std.specs.Prelude.{◌≤◌, ◌+◌, ℕ, List};
    ghost use Rattle.gl_kernel.specs.declared.log_step.LogStep.{LogStep};
    ghost use Rattle.gl_kernel.specs.Edits.{edited, IsWithin};

    // The items, in order.
    ghost items: { Self → List Self.Item };

    // How much it can store, and how much of that a list takes.
    ghost room: { Self → ℕ };

    ghost need: { List Self.Item → ℕ };

    // How much more a list may take after one edit.
    ghost growth: { ℕ };

    /// Makes room for so many edits.
    fn reserve(&mut self, edits: usize) -> Result<(), AllocError>
        requires { edits < 2 ^ 63 }
        ensures ok { OnOk result (need (items self.new) + edits * growth ≤ room self.new) }
        ensures items { items self.new ≡ items self.old }
        ensures room { room self.old ≤ room self.new };

    /// Puts an item in.
    fn insert(&mut self, at: usize, item: Self::Item)
        requires within { at ≤ length (items self.old) }
        requires fits { Fits need (room self.old) (insert (items self.old) at item) }
        ensures items { items self.new ≡ insert (items self.old) at item }
        ensures room { room self.old ≤ room self.new };

    /// Takes the item at a place out.
    fn remove(&mut self, at: usize) -> Self::Item
        requires { at < length (items self.old) }
        ensures item { slice_get (items self.old) at ≡ Some result }
        ensures items { items self.new ≡ remove (items self.old) at }
        ensures room { room self.old ≤ room self.new };

    /// Puts another item in the stead of the one at a place, which it answers.
    fn replace(&mut self, at: usize, item: Self::Item) -> Self::Item
        requires within { at < length (items self.old) }
        requires fits { Fits need (room self.old) (slice_set (items self.old) at item) }
        ensures item { slice_get (items self.old) at ≡ Some result }
        ensures items { items self.new ≡ slice_set (items self.old) at item }
        ensures room { room self.old ≤ room self.new };

    ghost grows: { (e : LogStep Self.Item) (xs : List Self.Item) → IsWithin e xs → need (edited e xs) ≤ need xs + growth };
}
