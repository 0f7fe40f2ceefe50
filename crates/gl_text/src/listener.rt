//! The listeners of a plan.

ghost use Rattle.std.specs.Prelude.{◌≡◌, ◌++◌, flat_map, OnOk};
ghost use Rattle.gl_text.specs.Texts.{names_of_decls, listener_names, listener_text};

use crate::name::{add_after, list_name};
use gl_line_writer::one_name;
use gl_lines::{ListDecl, ListenerDecl};
use gl_syntax::{Bytes, Memory};

/// Adds the lines of the listeners, in number order.
pub(crate) fn add_listeners(
    lists: &[ListDecl],
    listeners: &[ListenerDecl],
    out: &mut Bytes,
) -> Result<(), Memory>
    ensures { OnOk result
        (out.new ≡ out.old
        ++ flat_map (listener_text (names_of_decls lists.now) (listener_names listeners.now)) listeners.now) }
{
    'listeners: for decl in listeners {
        add_listener(lists, listeners, decl, out)?;
    }
    Ok(())
}

fn add_listener(
    lists: &[ListDecl],
    listeners: &[ListenerDecl],
    decl: &ListenerDecl,
    out: &mut Bytes,
) -> Result<(), Memory>
    ensures { OnOk result
        (out.new ≡ out.old ++ listener_text (names_of_decls lists.now) (listener_names listeners.now) decl.now) }
{
    one_name(b"listen", decl.name.text().bytes(), out)?;
    one_name(b" on", list_name(lists, decl.list), out)?;
    add_after(listeners, decl.after.as_slice(), out)?;
    if decl.echo {
        return out.push_all(b" echo\n");
    }
    out.push_all(b"\n")
}
