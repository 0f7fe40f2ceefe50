// The items in their slots. A vacant slot has none.
ghost use Rattle.std.specs.Prelude.{◌≡◌, ◌<◌, ◌≤◌, None, Some, IsSome, vec_len, vec_capacity};
ghost use Rattle.std.specs.Borrow.{sem};
ghost use Rattle.std.specs.Option.Follows.{option_follows_value};
ghost use Rattle.gl_counted.specs.Held.{item_at, Stores};

use std::mem;

// Puts an item into a vacant slot, or one past the last in the room that there is.
pub(crate) fn store<T>(items: &mut Vec<Option<T>>, slot: u32, item: T)
    requires next { slot ≤ vec_len items.old }
    requires room { slot ≡ vec_len items.old → vec_len items.old < vec_capacity items.old }
    requires vacant { item_at items.old.items slot ≡ None }
    ensures stores { Stores items.old.items items.new.items slot (Some item) }
    ensures capacity { vec_capacity items.new ≡ vec_capacity items.old }
{
    let index = slot as usize;
    if index == items.len() {
        items.push_reserved(Some(item));
        return;
    }
    match mem::replace(&mut items[index], Some(item)) {
        None => {}
        Some(_) => unreachable!(),
    }
}

// Takes the item of a slot out of it.
pub(crate) fn take<T>(items: &mut Vec<Option<T>>, slot: u32) -> T
    requires { IsSome (item_at items.old.items slot) }
    ensures value { item_at items.old.items slot ≡ Some result }
    ensures stores { Stores items.old.items items.new.items slot None }
    ensures capacity { vec_capacity items.new ≡ vec_capacity items.old }
{
    match mem::replace(&mut items[slot as usize], None) {
        Some(item) => item,
        None => unreachable!(),
    }
}

// The item of a slot that has one, for writing.
pub(crate) fn item_mut<T>(item: &mut Option<T>) -> &mut T
    requires { IsSome item.old }
    ensures* writes_back { sem 𝓛 (option_follows_value T.row item.entry result) }
    ensures value { item.old ≡ Some result.now }
{
    match item {
        Some(value) => value,
        None => unreachable!(),
    }
}
