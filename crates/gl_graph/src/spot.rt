//! Where an element stands that a list shows.

ghost use Rattle.std.specs.Prelude.{◌≡◌, ℕ, List};
ghost use Rattle.spec_states.specs.Tree.{Tree};
ghost use Rattle.gl_source.specs.Found.{found, found_among};
ghost use Rattle.gl_kernels.specs.CollectionStands.{children_at};
ghost use Rattle.gl_graph.specs.Spots.{spotted, OnSpot};

use gl_kernels::{Find, Kids};
use gl_plan::Value;

/// Where an element stands that a list shows: in the list itself, at a position of another list, or among the children of
/// the element there by a child model.
#[derive(Clone, Copy)]
pub enum Spot<'a> {
    Own(&'a Value),
    Of(u32, usize),
    Child(u32, usize, &'a Kids, usize),
}

/// What a list over one input finds, where it shows no children.
pub(crate) fn spot_in(input: u32, at: Option<Find<'_>>) -> Option<Spot<'_>>
    ensures spotted { (shows : ℕ → List Tree)
        → spotted result shows ≡ found at.entry (shows input) }
    ensures on { OnSpot (λ list. list ≡ input) result }
{
    match at {
        None => None,
        Some(Find::Own(value)) => Some(Spot::Own(value)),
        Some(Find::Input(position)) => Some(Spot::Of(input, position)),
        Some(Find::Child(_, _)) => None,
    }
}

/// What a list over one input finds, where it shows children by this model.
pub(crate) fn child_in<'a>(input: u32, model: &'a Kids, at: Option<Find<'a>>) -> Option<Spot<'a>>
    ensures spotted { (shows : ℕ → List Tree) → spotted result shows
        ≡ found_among (children_at model.now (shows input)) (shows input) at.entry }
    ensures on { OnSpot (λ list. list ≡ input) result }
{
    match at {
        None => None,
        Some(Find::Own(value)) => Some(Spot::Own(value)),
        Some(Find::Input(position)) => Some(Spot::Of(input, position)),
        Some(Find::Child(position, index)) => Some(Spot::Child(input, position, model, index)),
    }
}
