//! What lines of the large plan are made of.

ghost use Rattle.std.specs.Prelude.{◌≡◌, ◌<◌, ◌≤◌, ◌%◌, ◌∷◌, ◌++◌, [], IfOk, OnOk, IsTrue};
ghost use Rattle.spec_plans.specs.PlanNames.{unplaced_name};
ghost use Rattle.spec_reports.specs.Big.{element as pair_of, upwards as key_at};
ghost use Rattle.spec_value.specs.Name.{is_lower};

use gl_lang::{Key, Keys, Order, Path};
use gl_lines::{Named, NamedList};
use gl_value::{Memory, Name, Text, TextFault, Value, Values};
use std::alloc::Global;

/// The name of one letter.
#[tactic(auto, using(crate::proofs::Letters::letter_is_text, crate::proofs::Letters::letter_is_name))]
pub(crate) fn letter_name(alloc: Global, letter: u8) -> Result<Name, Memory>
    requires { IsTrue (is_lower letter) }
    ensures { IfOk result (λ name. name ≡ letter ∷ []) }
{
    match Text::from_utf8(alloc, &[letter]) {
        Ok(text) => match Name::new(text) {
            Ok(name) => Ok(name),
            Err(_) => unreachable!(),
        },
        Err(TextFault::NotUtf8 { .. }) => unreachable!(),
        Err(TextFault::Memory) => Err(Memory),
    }
}

/// The name of one letter, as it stands in a line that was never read.
pub(crate) fn letter(alloc: Global, letter: u8) -> Result<Named, Memory>
    requires { IsTrue (is_lower letter) }
    ensures { IfOk result (λ named. named ≡ unplaced_name (letter ∷ [])) }
{
    let name = letter_name(alloc, letter)?;
    Ok(Named { name, column: 0 })
}

/// The same of a name that other lines share.
pub(crate) fn named(name: &Name) -> Result<Named, Memory>
    ensures { IfOk result (λ named. named ≡ unplaced_name name.now) }
{
    let name = name.copy()?;
    Ok(Named { name, column: 0 })
}

/// Two names of one letter each.
pub(crate) fn two_letters(alloc: Global, first: u8, second: u8) -> Result<NamedList, Memory>
    requires first { IsTrue (is_lower first) }
    requires second { IsTrue (is_lower second) }
    ensures { IfOk result
        (λ names. names ≡ unplaced_name (first ∷ []) ∷ unplaced_name (second ∷ []) ∷ []) }
{
    let mut names = NamedList::new(alloc);
    names.add(letter(alloc, first)?)?;
    names.add(letter(alloc, second)?)?;
    Ok(names)
}

/// What is left of a number after division.
pub(crate) fn residue(number: u64, by: u64) -> u32
    requires some { 0 < by }
    requires few { by ≤ 4294967296 }
    ensures { result ≡ number % by }
{
    (number % by) as u32
}

/// A pair of numbers.
pub(crate) fn element(alloc: Global, a: u32, b: u32) -> Result<Value, Memory>
    ensures { IfOk result (λ value. value ≡ pair_of a b) }
{
    let mut pair = Values::new(alloc);
    add(&mut pair, Value::num(i64::from(a)))?;
    add(&mut pair, Value::num(i64::from(b)))?;
    Ok(Value::items(pair))
}

fn add(values: &mut Values, value: Value) -> Result<(), Memory>
    ensures { OnOk result (values.new ≡ values.old ++ value ∷ []) }
{
    match values.push(value) {
        Ok(()) => Ok(()),
        Err((_value, memory)) => Err(memory),
    }
}

/// The path of one step.
pub(crate) fn step(alloc: Global, index: u16) -> Result<Path, Memory>
    ensures { IfOk result (λ path. path ≡ index ∷ []) }
{
    let mut path = Path::new(alloc);
    path.add(index)?;
    Ok(path)
}

// By the element at an index, upwards.
fn upwards(alloc: Global, index: u16) -> Result<Key, Memory>
    ensures { IfOk result (λ key. key ≡ key_at index) }
{
    let path = step(alloc, index)?;
    Ok(Key { path, down: false })
}

/// The order by the first element.
pub(crate) fn by_first(alloc: Global) -> Result<Order, Memory>
    ensures { IfOk result (λ order. order ≡ key_at 0 ∷ []) }
{
    let mut keys = Keys::new(alloc);
    keys.add(upwards(alloc, 0)?)?;
    Ok(Order { keys })
}

/// The order by the first element, and then by the second.
pub(crate) fn by_both(alloc: Global) -> Result<Order, Memory>
    ensures { IfOk result (λ order. order ≡ key_at 0 ∷ key_at 1 ∷ []) }
{
    let mut keys = Keys::new(alloc);
    keys.add(upwards(alloc, 0)?)?;
    keys.add(upwards(alloc, 1)?)?;
    Ok(Order { keys })
}
