//! Functions.

ghost use Rattle.std.specs.Prelude.{◌≡◌, ◌++◌, OnOk};
ghost use Rattle.spec_lang.specs.Func as meant;
ghost use Rattle.spec_syntax.specs.Spelled.{spelled_func, spelled_funcs, spelled_other_funcs};
ghost use Rattle.gl_line_writer.specs.Pieces.{func_after_comma};

use crate::path::add_path;
use gl_lang::{Func, FuncShape, Path};
use gl_syntax::{Bytes, Memory, Value, add_signed, add_value};
use gl_value::Text;

/// Adds the function. It recurses once a level of nesting. Where memory runs out part of it may be added.
#[cycle(func)]
pub fn add_func(func: &Func, out: &mut Bytes) -> Result<(), Memory>
    ensures { OnOk result (out.new ≡ out.old ++ spelled_func func.now) }
{
    match func.shape() {
        FuncShape::At(path) => add_path(path, out),
        FuncShape::Num(n) => add_signed(n, out),
        FuncShape::Text(text) => add_quoted(text, out),
        FuncShape::Count(path) => add_count(path, out),
        FuncShape::Sum { list, each } => add_sum(list, each, out),
        FuncShape::Add(first, second) => add_pair(first, second, out),
        FuncShape::Items(parts) => add_list(parts, out),
    }
}

fn add_quoted(text: &Text, out: &mut Bytes) -> Result<(), Memory>
    ensures { OnOk result (out.new ≡ out.old ++ spelled_func (meant.bytes text.now)) }
{
    let value = Value::text(text.copy()?);
    add_value(&value, out)
}

fn add_count(path: &Path, out: &mut Bytes) -> Result<(), Memory>
    ensures { OnOk result (out.new ≡ out.old ++ spelled_func (meant.count path.now)) }
{
    out.push_all(b"count(")?;
    add_path(path, out)?;
    out.push_all(b")")
}

fn add_sum(list: &Path, each: &Path, out: &mut Bytes) -> Result<(), Memory>
    ensures { OnOk result (out.new ≡ out.old ++ spelled_func (meant.total list.now each.now)) }
{
    out.push_all(b"sum(")?;
    add_path(list, out)?;
    out.push_all(b",")?;
    add_path(each, out)?;
    out.push_all(b")")
}

#[cycle(func)]
fn add_pair(first: &Func, second: &Func, out: &mut Bytes) -> Result<(), Memory>
    ensures { OnOk result (out.new ≡ out.old ++ spelled_func (meant.sum first.now second.now)) }
{
    out.push_all(b"add(")?;
    add_func(first, out)?;
    add_after_comma(second, out)?;
    out.push_all(b")")
}

#[cycle(func)]
fn add_list(parts: &[Func], out: &mut Bytes) -> Result<(), Memory>
    ensures { OnOk result (out.new ≡ out.old ++ spelled_func (meant.list (meant.funcs parts.now))) }
{
    out.push_all(b"[")?;
    add_parts(parts, out)?;
    out.push_all(b"]")
}

#[cycle(func)]
fn add_parts(parts: &[Func], out: &mut Bytes) -> Result<(), Memory>
    ensures { OnOk result (out.new ≡ out.old ++ spelled_funcs (meant.funcs parts.now)) }
{
    match parts {
        [] => Ok(()),
        [first, others @ ..] => {
            add_func(first, out)?;
            add_others(others, out)
        }
    }
}

// The parts after the first one.
#[cycle(func)]
fn add_others(parts: &[Func], out: &mut Bytes) -> Result<(), Memory>
    ensures { OnOk result (out.new ≡ out.old ++ spelled_other_funcs (meant.funcs parts.now)) }
{
    'parts: for part in parts {
        add_after_comma(part, out)?;
    }
    Ok(())
}

#[cycle(func)]
fn add_after_comma(func: &Func, out: &mut Bytes) -> Result<(), Memory>
    ensures { OnOk result (out.new ≡ out.old ++ func_after_comma func.now) }
{
    out.push_all(b",")?;
    add_func(func, out)
}
