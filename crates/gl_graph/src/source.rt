//! How a source is edited by commands.

ghost use Rattle.std.specs.Prelude.{◌≡◌, ◌≤◌, ◌∷◌, [], IfErr, IfOk, OnOk, OnErr};
ghost use Rattle.gl_source.specs.Stands.{IsUndo};
ghost use Rattle.spec_states.specs.Wave.{edit as told_by, edited};
ghost use Rattle.gl_graph.specs.Commands.{IsEdit, IsMade, IsWhy, edit_for};

use gl_kernels::Delta;
use gl_plan::{Command, Value, Values};
use gl_source::{Edit, EditFault, SourceList, SourceUndo};
use std::alloc::{AllocError, Global};

/// Edits a source by a command. An edit of one element takes time logarithmic in the length, another one that for each
/// element that it adds or takes out. It takes memory for as many changes.
pub(crate) fn edit_source(
    source: &mut SourceList,
    alloc: Global,
    command: &Command,
) -> Result<(Delta, SourceUndo), EditFault>
    requires { IsEdit command.now }
    ensures delta { IfOk result (λ told. told.0.pieces ≡ told_by command.now source.old.values) }
    ensures values { OnOk result (source.new.values ≡ edited command.now source.old.values) }
    ensures limit { source.new.limit ≡ source.old.limit }
    ensures made { OnOk result (IsMade command.now source.old.values source.old.limit) }
    ensures why { IfErr result (IsWhy command.now source.old.values source.old.limit) }
    ensures undo { IfOk result (λ told. IsUndo told.1 source.old source.new) }
    ensures err { OnErr result (source.new.values ≡ source.old.values) }
    ensures room { source.old.room ≤ source.new.room }
{
    let e = edit_of(alloc, command)?;
    source.edit(e)
}

// The edit that a command comes to.
fn edit_of(alloc: Global, command: &Command) -> Result<Edit, AllocError>
    requires { IsEdit command.now }
    ensures { IfOk result (λ e. e ≡ edit_for command.now) }
{
    match command {
        Command::Add { list: _, value } => appending(alloc, value),
        Command::AddAll { list: _, values } => Ok(Edit::Append {
            values: values.copy()?,
        }),
        Command::Insert {
            list: _,
            index,
            value,
        } => Ok(Edit::Insert {
            index: *index as u64,
            value: value.copy()?,
        }),
        Command::Set {
            list: _,
            index,
            value,
        } => Ok(Edit::Set {
            index: *index as u64,
            value: value.copy()?,
        }),
        Command::Remove { list: _, index } => Ok(Edit::Remove {
            index: *index as u64,
        }),
        Command::Clear { list: _ } => Ok(Edit::Clear),
        _ => unreachable!(),
    }
}

// One value more at the end.
fn appending(alloc: Global, value: &Value) -> Result<Edit, AllocError>
    ensures { IfOk result (λ e. e ≡ Edit.Append (value.now ∷ [])) }
{
    let mut values = Values::new(alloc);
    match values.push(value.copy()?) {
        Ok(()) => Ok(Edit::Append { values }),
        Err((_value, failed)) => Err(failed),
    }
}
