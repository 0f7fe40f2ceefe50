//! The listeners of each list.

ghost use Rattle.std.specs.Prelude.{◌≡◌, ◌==◌, ◌<◌, ◌≤◌, ◌++◌, ◌∷◌, [], ℕ, if◌then◌else◌, length, slice_index_or, IfOk};
ghost use Rattle.std.specs.List.{AllByRecursion};
ghost use Rattle.gl_tell.specs.Listeners.{AreByList};

use gl_plan::ListenerDecl;
use gl_value::{Items, Memory};
use std::alloc::Global;

/// The numbers of the listeners of each of so many lists, rising. It takes memory for them.
pub(crate) fn listeners_by_list(
    alloc: Global,
    lists: usize,
    listeners: &[ListenerDecl],
) -> Result<Vec<Items<u32>>, Memory>
    requires on { AllByRecursion (λ d. d.list < lists) listeners.now }
    requires few { length listeners.now ≤ 256 }
    ensures { IfOk result (λ by_list. AreByList lists listeners.now by_list.items) }
{
    let mut by_list = none_by_list(alloc, lists)?;
    for (number, listener) in listeners.iter().enumerate() {
        by_list = with_listener(by_list, listener.list, number as u32)?;
    }
    Ok(by_list)
}

// So many empty lists.
#[tactic(auto, using(crate::proofs::ByList::one_empty))]
fn none_by_list(alloc: Global, lists: usize) -> Result<Vec<Items<u32>>, Memory>
    ensures long { IfOk result (λ none. length none.items ≡ lists) }
    ensures empty { IfOk result (λ none. (list : ℕ) → slice_index_or none.items list [] ≡ []) }
{
    let mut none = Vec::with_capacity(alloc, lists)?;
    for _list in 0..lists {
        none.push(Items::new(alloc))?;
    }
    Ok(none)
}

// A listener more of a list.
#[tactic(auto, using(crate::proofs::ByList::put_at))]
fn with_listener(
    mut by_list: Vec<Items<u32>>,
    list: u32,
    number: u32,
) -> Result<Vec<Items<u32>>, Memory>
    requires { list < length by_list.items }
    ensures long { IfOk result (λ more. length more.items ≡ length by_list.items) }
    ensures more { IfOk result (λ more. (other : ℕ) → slice_index_or more.items other []
        ≡ slice_index_or by_list.items other [] ++ (if list == other then number ∷ [] else [])) }
{
    by_list[list as usize].add(number)?;
    Ok(by_list)
}
