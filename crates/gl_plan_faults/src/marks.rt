//! Marks by number.

ghost use Rattle.std.specs.Prelude.{◌≡◌, ◌≤◌, ◌==◌, ◌||◌, ℕ, length, IfOk};
ghost use Rattle.gl_plan_faults.specs.Marked.{is_marked};

use std::alloc::AllocError;

/// Whether a number is marked; none is past the end.
pub(crate) fn is_marked(marks: &[bool], number: usize) -> bool
    ensures { result ≡ is_marked marks.now number }
{
    match marks.get(number) {
        Some(mark) => *mark,
        None => false,
    }
}

/// The marks with that of a number more.
#[tactic(auto, using(crate::proofs::MarkedNumbers::marked_more))]
pub(crate) fn with_mark(marks: Vec<bool>, number: u32) -> Result<Vec<bool>, AllocError>
    ensures { IfOk result
        (λ more. (b : ℕ) → is_marked more.items b ≡ (is_marked marks.items b || number == b)) }
{
    let mut more = at_least(marks, number as usize + 1)?;
    more[number as usize] = true;
    Ok(more)
}

// The same marks, with room for so many numbers.
#[tactic(auto, using(crate::proofs::MarkedNumbers::still_marked))]
fn at_least(mut marks: Vec<bool>, len: usize) -> Result<Vec<bool>, AllocError>
    ensures same { IfOk result
        (λ more. (b : ℕ) → is_marked more.items b ≡ is_marked marks.items b) }
    ensures long { IfOk result (λ more. len ≤ length more.items) }
{
    for _number in marks.len()..len {
        marks.push(false)?;
    }
    Ok(marks)
}
