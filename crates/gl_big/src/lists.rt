//! The lines that declare the lists and the listeners of the large plan.

ghost use Rattle.std.specs.Prelude.{◌≡◌, ◌∷◌, ◌++◌, [], OnOk, pos, false, IsTrue, codes};
ghost use Rattle.spec_value.specs.Name.{is_lower};
ghost use Rattle.spec_value.specs.Tree.{num};
ghost use Rattle.spec_lang.specs.Matcher.{is};
ghost use Rattle.spec_lang.specs.Func.{count};
ghost use Rattle.spec_lang.specs.declared.Test.TheVariants.{Ge};
ghost use Rattle.gl_lines.specs.declared.line.Line.TheVariants as line;
ghost use Rattle.spec_plans.specs.PlanNames.{unplaced_name};
ghost use Rattle.spec_reports.specs.Big.{upwards};
ghost use Rattle.gl_big.specs.Lines.{view_lines, listener_lines};

use crate::numbered::LinesSoFar;
use crate::parts::{by_both, by_first, letter, step, two_letters};
use gl_lang::{Func, Matcher, Path, Test};
use gl_lines::{Line, NamedList};
use gl_value::{Memory, Value};
use std::alloc::Global;

/// Adds the lines of the lists over the source.
pub(crate) fn add_views(alloc: Global, lines: &mut LinesSoFar) -> Result<(), Memory>
    ensures { OnOk result (lines.new ≡ lines.old ++ view_lines) }
{
    add_filter(alloc, lines)?;
    add_sorted(alloc, lines)?;
    add_unique(alloc, lines)?;
    add_grouping(alloc, lines)?;
    add_function(alloc, lines)?;
    add_composite(alloc, lines)
}

// filter f s .0 >= 50
fn add_filter(alloc: Global, lines: &mut LinesSoFar) -> Result<(), Memory>
    ensures { OnOk result (lines.new ≡ lines.old
        ++ line.Filter (unplaced_name (codes "f")) (unplaced_name (codes "s"))
        (is (0 ∷ []) Ge (num (pos 50))) ∷ []) }
{
    let name = letter(alloc, b'f')?;
    let input = letter(alloc, b's')?;
    let matcher = Matcher::is(step(alloc, 0)?, Test::Ge, Value::num(50));
    lines.add(Line::Filter {
        name,
        input,
        matcher,
    })
}

// sorted o f .0, .1
fn add_sorted(alloc: Global, lines: &mut LinesSoFar) -> Result<(), Memory>
    ensures { OnOk result (lines.new ≡ lines.old
        ++ line.Sorted (unplaced_name (codes "o")) (unplaced_name (codes "f"))
        (upwards 0 ∷ upwards 1 ∷ []) ∷ []) }
{
    let name = letter(alloc, b'o')?;
    let input = letter(alloc, b'f')?;
    let order = by_both(alloc)?;
    lines.add(Line::Sorted { name, input, order })
}

// unique u s .0
fn add_unique(alloc: Global, lines: &mut LinesSoFar) -> Result<(), Memory>
    ensures { OnOk result (lines.new ≡ lines.old
        ++ line.Unique (unplaced_name (codes "u")) (unplaced_name (codes "s")) (upwards 0 ∷ [])
        ∷ []) }
{
    let name = letter(alloc, b'u')?;
    let input = letter(alloc, b's')?;
    let order = by_first(alloc)?;
    lines.add(Line::Unique { name, input, order })
}

// grouping g s .0
fn add_grouping(alloc: Global, lines: &mut LinesSoFar) -> Result<(), Memory>
    ensures { OnOk result (lines.new ≡ lines.old
        ++ line.Grouping (unplaced_name (codes "g")) (unplaced_name (codes "s")) (upwards 0 ∷ [])
        ∷ []) }
{
    let name = letter(alloc, b'g')?;
    let input = letter(alloc, b's')?;
    let order = by_first(alloc)?;
    lines.add(Line::Grouping { name, input, order })
}

// function n g count(.)
fn add_function(alloc: Global, lines: &mut LinesSoFar) -> Result<(), Memory>
    ensures { OnOk result (lines.new ≡ lines.old
        ++ line.Function (unplaced_name (codes "n")) (unplaced_name (codes "g")) (count []) ∷ []) }
{
    let name = letter(alloc, b'n')?;
    let input = letter(alloc, b'g')?;
    let func = Func::count(Path::new(alloc));
    lines.add(Line::Function { name, input, func })
}

// composite c o u
fn add_composite(alloc: Global, lines: &mut LinesSoFar) -> Result<(), Memory>
    ensures { OnOk result (lines.new ≡ lines.old
        ++ line.Composite (unplaced_name (codes "c"))
        (unplaced_name (codes "o") ∷ unplaced_name (codes "u") ∷ []) [] ∷ []) }
{
    let name = letter(alloc, b'c')?;
    let members = two_letters(alloc, b'o', b'u')?;
    let may = NamedList::new(alloc);
    lines.add(Line::Composite { name, members, may })
}

/// Adds the lines of the listeners: `listen a on c` and `listen b on n`.
pub(crate) fn add_listeners(alloc: Global, lines: &mut LinesSoFar) -> Result<(), Memory>
    ensures { OnOk result (lines.new ≡ lines.old ++ listener_lines) }
{
    add_listener(alloc, b'a', b'c', lines)?;
    add_listener(alloc, b'b', b'n', lines)
}

fn add_listener(alloc: Global, own: u8, heard: u8, lines: &mut LinesSoFar) -> Result<(), Memory>
    requires own { IsTrue (is_lower own) }
    requires heard { IsTrue (is_lower heard) }
    ensures { OnOk result (lines.new ≡ lines.old
        ++ line.Listen (unplaced_name (own ∷ [])) (unplaced_name (heard ∷ [])) [] false ∷ []) }
{
    let name = letter(alloc, own)?;
    let list = letter(alloc, heard)?;
    let after = NamedList::new(alloc);
    lines.add(Line::Listen {
        name,
        list,
        after,
        echo: false,
    })
}
