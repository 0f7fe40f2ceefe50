//! The forms of lines: a word, one or two names, and what stands after them.

ghost use Rattle.std.specs.Prelude.{◌≡◌, ◌++◌, ◌∷◌, [], codes, decimal, OnOk};
ghost use Rattle.spec_syntax.specs.ValueText.{spelled_value, spelled_list};
ghost use Rattle.spec_syntax.specs.Spelled.{spelled_path, spelled_order, spelled_bounds, spelled_func, spelled_matcher};
ghost use Rattle.spec_lines.specs.Line.{at};
ghost use Rattle.spec_lines.specs.Spelled.{spelled_with};
ghost use Rattle.gl_line_writer.specs.Pieces.{with_tail};

use crate::func::add_func;
use crate::matcher::add_matcher;
use crate::path::{add_bounds, add_order, add_path};
use gl_lang::{Bounds, Func, Matcher, Order, Path};
use gl_syntax::{Bytes, Memory, Value, add_number, add_value};
use gl_value::Values;

/// Adds the word and the name, a space between them. Where memory runs out part of it may be added, here and below.
pub fn one_name(word: &[u8], name: &[u8], out: &mut Bytes) -> Result<(), Memory>
    ensures { OnOk result (out.new ≡ out.old ++ spelled_with word.now (at 0 name.now ∷ [])) }
{
    out.push_all(word)?;
    out.push_all(b" ")?;
    out.push_all(name)
}

/// Adds the word and two names, a space before each.
pub fn two_names(word: &[u8], first: &[u8], second: &[u8], out: &mut Bytes) -> Result<(), Memory>
    ensures { OnOk result
        (out.new ≡ out.old ++ spelled_with word.now (at 0 first.now ∷ at 0 second.now ∷ [])) }
{
    one_name(word, first, out)?;
    out.push_all(b" ")?;
    out.push_all(second)
}

/// Adds the word, the name and the value.
pub fn name_value(word: &[u8], list: &[u8], value: &Value, out: &mut Bytes) -> Result<(), Memory>
    ensures { OnOk result
        (out.new ≡ out.old ++ with_tail word.now (at 0 list.now ∷ []) (spelled_value value.now)) }
{
    one_name(word, list, out)?;
    out.push_all(b" ")?;
    add_value(value, out)
}

/// Adds the word, the name and the list of the values.
pub fn name_values(word: &[u8], list: &[u8], values: &Values, out: &mut Bytes) -> Result<(), Memory>
    ensures { OnOk result
        (out.new ≡ out.old ++ with_tail word.now (at 0 list.now ∷ []) (spelled_list values.now)) }
{
    let value = Value::items(values.copy()?);
    name_value(word, list, &value, out)
}

/// Adds the word, the name and the index.
pub fn name_index(word: &[u8], list: &[u8], index: u32, out: &mut Bytes) -> Result<(), Memory>
    ensures { OnOk result
        (out.new ≡ out.old ++ with_tail word.now (at 0 list.now ∷ []) (decimal index)) }
{
    one_name(word, list, out)?;
    out.push_all(b" ")?;
    add_number(u64::from(index), out)
}

/// Adds the word, the name, the index and the value.
pub fn name_index_value(
    word: &[u8],
    list: &[u8],
    index: u32,
    value: &Value,
    out: &mut Bytes,
) -> Result<(), Memory>
    ensures { OnOk result
        (out.new ≡ out.old
        ++ with_tail word.now (at 0 list.now ∷ []) (decimal index ++ codes " " ++ spelled_value value.now)) }
{
    name_index(word, list, index, out)?;
    out.push_all(b" ")?;
    add_value(value, out)
}

/// Adds the word, the name and the matcher.
pub fn name_matcher(
    word: &[u8],
    list: &[u8],
    matcher: &Matcher,
    out: &mut Bytes,
) -> Result<(), Memory>
    ensures { OnOk result
        (out.new
        ≡ out.old ++ with_tail word.now (at 0 list.now ∷ []) (spelled_matcher matcher.now)) }
{
    one_name(word, list, out)?;
    out.push_all(b" ")?;
    add_matcher(matcher, out)
}

/// Adds the word, the name and the order.
pub fn name_order(word: &[u8], list: &[u8], order: &Order, out: &mut Bytes) -> Result<(), Memory>
    ensures { OnOk result
        (out.new ≡ out.old ++ with_tail word.now (at 0 list.now ∷ []) (spelled_order order.now)) }
{
    one_name(word, list, out)?;
    out.push_all(b" ")?;
    add_order(order, out)
}

/// Adds the word, the name and the bounds.
pub fn name_bounds(word: &[u8], list: &[u8], bounds: Bounds, out: &mut Bytes) -> Result<(), Memory>
    ensures { OnOk result
        (out.new ≡ out.old ++ with_tail word.now (at 0 list.now ∷ []) (spelled_bounds bounds)) }
{
    one_name(word, list, out)?;
    out.push_all(b" ")?;
    add_bounds(bounds, out)
}

/// Adds the word, the name and the function.
pub fn name_func(word: &[u8], list: &[u8], func: &Func, out: &mut Bytes) -> Result<(), Memory>
    ensures { OnOk result
        (out.new ≡ out.old ++ with_tail word.now (at 0 list.now ∷ []) (spelled_func func.now)) }
{
    one_name(word, list, out)?;
    out.push_all(b" ")?;
    add_func(func, out)
}

/// Adds the word, the names and the matcher.
pub fn names_matcher(
    word: &[u8],
    name: &[u8],
    input: &[u8],
    matcher: &Matcher,
    out: &mut Bytes,
) -> Result<(), Memory>
    ensures { OnOk result
        (out.new ≡ out.old ++ with_tail word.now (at 0 name.now ∷ at 0 input.now ∷ []) (spelled_matcher matcher.now)) }
{
    two_names(word, name, input, out)?;
    out.push_all(b" ")?;
    add_matcher(matcher, out)
}

/// Adds the word, the names and the order.
pub fn names_order(
    word: &[u8],
    name: &[u8],
    input: &[u8],
    order: &Order,
    out: &mut Bytes,
) -> Result<(), Memory>
    ensures { OnOk result
        (out.new ≡ out.old ++ with_tail word.now (at 0 name.now ∷ at 0 input.now ∷ []) (spelled_order order.now)) }
{
    two_names(word, name, input, out)?;
    out.push_all(b" ")?;
    add_order(order, out)
}

/// Adds the word, the names and the bounds.
pub fn names_bounds(
    word: &[u8],
    name: &[u8],
    input: &[u8],
    bounds: Bounds,
    out: &mut Bytes,
) -> Result<(), Memory>
    ensures { OnOk result
        (out.new ≡ out.old ++ with_tail word.now (at 0 name.now ∷ at 0 input.now ∷ []) (spelled_bounds bounds)) }
{
    two_names(word, name, input, out)?;
    out.push_all(b" ")?;
    add_bounds(bounds, out)
}

/// Adds the word, the names and the function.
pub fn names_func(
    word: &[u8],
    name: &[u8],
    input: &[u8],
    func: &Func,
    out: &mut Bytes,
) -> Result<(), Memory>
    ensures { OnOk result
        (out.new ≡ out.old ++ with_tail word.now (at 0 name.now ∷ at 0 input.now ∷ []) (spelled_func func.now)) }
{
    two_names(word, name, input, out)?;
    out.push_all(b" ")?;
    add_func(func, out)
}

/// Adds the word, the names and the path.
pub fn names_path(
    word: &[u8],
    name: &[u8],
    input: &[u8],
    path: &Path,
    out: &mut Bytes,
) -> Result<(), Memory>
    ensures { OnOk result
        (out.new ≡ out.old ++ with_tail word.now (at 0 name.now ∷ at 0 input.now ∷ []) (spelled_path path.now)) }
{
    two_names(word, name, input, out)?;
    out.push_all(b" ")?;
    add_path(path, out)
}
