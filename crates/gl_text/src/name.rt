//! Names by their numbers.

ghost use Rattle.std.specs.Prelude.{◌≡◌, ◌++◌, map, OnOk};
ghost use Rattle.spec_plan_texts.specs.PlanNames.{named};
ghost use Rattle.spec_plan_texts.specs.Spelled.{spelled_names, spelled_may, spelled_after, spelled_others};
ghost use Rattle.gl_text.specs.Texts.{names_of_decls, listener_names, name_at, spaced_name, name_after_comma};

use gl_lines::{ListDecl, ListenerDecl};
use gl_syntax::{Bytes, Memory};

/// The name of the list of a number, and no bytes past the last.
#[tactic(auto, using(crate::proofs::Texts::list_at))]
pub(crate) fn list_name(lists: &[ListDecl], number: u32) -> &[u8]
    ensures { result.now ≡ name_at (names_of_decls lists.now) number }
{
    match lists.get(number as usize) {
        Some(decl) => decl.name.text().bytes(),
        None => b"",
    }
}

/// The name of the listener of a number, and no bytes past the last.
#[tactic(auto, using(crate::proofs::Texts::listener_at))]
pub(crate) fn listener_name(listeners: &[ListenerDecl], number: u32) -> &[u8]
    ensures { result.now ≡ name_at (listener_names listeners.now) number }
{
    match listeners.get(number as usize) {
        Some(decl) => decl.name.text().bytes(),
        None => b"",
    }
}

/// Adds the names of the lists of these numbers, a space before each.
pub(crate) fn add_names(lists: &[ListDecl], numbers: &[u32], out: &mut Bytes) -> Result<(), Memory>
    ensures { OnOk result
        (out.new ≡ out.old ++ spelled_names (map (named (names_of_decls lists.now)) numbers.now)) }
{
    'names: for number in numbers {
        add_spaced(lists, *number, out)?;
    }
    Ok(())
}

fn add_spaced(lists: &[ListDecl], number: u32, out: &mut Bytes) -> Result<(), Memory>
    ensures { OnOk result (out.new ≡ out.old ++ spaced_name (names_of_decls lists.now) number) }
{
    out.push_all(b" ")?;
    out.push_all(list_name(lists, number))
}

/// Adds the lists that may become members, after their word; nothing where there are none.
pub(crate) fn add_may(lists: &[ListDecl], may: &[u32], out: &mut Bytes) -> Result<(), Memory>
    ensures { OnOk result
        (out.new ≡ out.old ++ spelled_may (map (named (names_of_decls lists.now)) may.now)) }
{
    match may {
        [] => Ok(()),
        [_, ..] => {
            out.push_all(b" may")?;
            add_names(lists, may, out)
        }
    }
}

/// Adds the listeners that are told before, after their word; nothing where there are none.
pub(crate) fn add_after(
    listeners: &[ListenerDecl],
    after: &[u32],
    out: &mut Bytes,
) -> Result<(), Memory>
    ensures { OnOk result
        (out.new
        ≡ out.old ++ spelled_after (map (named (listener_names listeners.now)) after.now)) }
{
    match after {
        [] => Ok(()),
        [first, others @ ..] => {
            out.push_all(b" after ")?;
            out.push_all(listener_name(listeners, *first))?;
            add_others(listeners, others, out)
        }
    }
}

fn add_others(listeners: &[ListenerDecl], numbers: &[u32], out: &mut Bytes) -> Result<(), Memory>
    ensures { OnOk result
        (out.new ≡ out.old ++ spelled_others (map (named (listener_names listeners.now)) numbers.now)) }
{
    'names: for number in numbers {
        add_after_comma(listeners, *number, out)?;
    }
    Ok(())
}

fn add_after_comma(listeners: &[ListenerDecl], number: u32, out: &mut Bytes) -> Result<(), Memory>
    ensures { OnOk result
        (out.new ≡ out.old ++ name_after_comma (listener_names listeners.now) number) }
{
    out.push_all(b",")?;
    out.push_all(listener_name(listeners, number))
}
