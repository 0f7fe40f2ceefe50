//! What lines name, by number.

ghost use Rattle.std.specs.Prelude.{◌≡◌, ◌<◌, ◌≤◌, ◌++◌, ◌==◌, [], ◌∷◌, ℕ, if◌then◌else◌, length, option_to_list, IfOk};
ghost use Rattle.spec_plans.specs.Names.{heads, hearers};
ghost use Rattle.spec_plans.specs.Making.{row_for, rows_for};
ghost use Rattle.gl_plan.specs.Tables.{AreTables, rows_at};

use gl_lines::{Line, NumberedLine};
use gl_plan_faults::{NameTable, names_of_listeners, names_of_lists};
use gl_value::{Value, Values};
use std::alloc::{AllocError, Global};

/// The names of the lists and of the listeners, and the opening elements of each list, by its number.
#[derive(Drop)]
pub(crate) struct Tables {
    pub(crate) alloc: Global,
    pub(crate) lists: NameTable,
    pub(crate) listeners: NameTable,
    pub(crate) rows: Vec<Values>,
}

impl Tables {
    /// The tables of lines.
    pub(crate) fn new(alloc: Global, lines: &[NumberedLine]) -> Result<Tables, AllocError>
        requires lists { length (heads lines.now) ≤ 256 }
        requires listeners { length (hearers lines.now) ≤ 256 }
        ensures { IfOk result (λ tables. AreTables tables lines.now) }
    {
        let lists = names_of_lists(alloc, lines)?;
        let listeners = names_of_listeners(alloc, lines)?;
        let rows = rows(alloc, &lists, lines)?;
        Ok(Tables {
            alloc,
            lists,
            listeners,
            rows,
        })
    }
}

// The opening elements under each number of a name. Values are shared, so none is copied deeply.
#[tactic(auto, using(crate::proofs::Rows::rows_more))]
fn rows(alloc: Global, names: &NameTable, lines: &[NumberedLine]) -> Result<Vec<Values>, AllocError>
    ensures { IfOk result
        (λ rows. (source : ℕ) → rows_at rows.items source ≡ rows_for names.now lines.now source) }
{
    let mut rows = no_rows(alloc, names.as_slice().len())?;
    for line in lines {
        rows = with_row(rows, names, &line.what)?;
    }
    Ok(rows)
}

// As many empty lists.
#[tactic(auto, using(crate::proofs::Rows::one_empty))]
fn no_rows(alloc: Global, count: usize) -> Result<Vec<Values>, AllocError>
    ensures count { IfOk result (λ rows. length rows.items ≡ count) }
    ensures empty { IfOk result (λ rows. (source : ℕ) → rows_at rows.items source ≡ []) }
{
    let mut rows = Vec::with_capacity(alloc, count)?;
    for _row in 0..count {
        rows.push(Values::new(alloc))?;
    }
    Ok(rows)
}

// The rows with that of a line more, where it gives one.
fn with_row(rows: Vec<Values>, names: &NameTable, line: &Line) -> Result<Vec<Values>, AllocError>
    requires { length rows.items ≡ length names.now }
    ensures count { IfOk result (λ more. length more.items ≡ length rows.items) }
    ensures rows { IfOk result
        (λ more. (source : ℕ)
        → rows_at more.items source
        ≡ rows_at rows.items source ++ option_to_list (row_for names.now source line.now)) }
{
    match line {
        Line::Row { list, value } => match names.number(&list.name) {
            Some(number) => with_value(rows, number, value.copy()?),
            None => Ok(rows),
        },
        _ => Ok(rows),
    }
}

// The rows with a value more under a number.
#[tactic(auto, using(crate::proofs::Rows::put_at))]
fn with_value(mut rows: Vec<Values>, number: u32, value: Value) -> Result<Vec<Values>, AllocError>
    requires { number < length rows.items }
    ensures count { IfOk result (λ more. length more.items ≡ length rows.items) }
    ensures rows { IfOk result
        (λ more. (source : ℕ)
        → rows_at more.items source
        ≡ rows_at rows.items source ++ (if number == source then value ∷ [] else [])) }
{
    match rows[number as usize].push(value) {
        Ok(()) => Ok(rows),
        Err((_, failed)) => Err(failed),
    }
}
