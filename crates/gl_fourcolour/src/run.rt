// A stretch of places of one colour.
ghost use Rattle.std.specs.Prelude.{◌≡◌};
ghost use Rattle.gl_fourcolour.specs.Rows.{run_if, joined, JoinFits};

/// So many places of one colour, side by side.
#[derive(Clone, Copy)]
pub(crate) struct Run {
    pub(crate) colour: u8,
    pub(crate) len: usize,
}

// The run if it has the colour.
pub(crate) fn run_if(run: Option<Run>, colour: u8) -> Option<Run>
    ensures { result ≡ run_if run colour }
{
    match run {
        Some(here) => {
            if here.colour == colour {
                Some(here)
            } else {
                None
            }
        }
        None => None,
    }
}

// The one run that two neighbours of one colour make.
pub(crate) fn joined(left: Option<Run>, right: Option<Run>) -> Option<Run>
    requires { JoinFits left right }
    ensures { result ≡ joined left right }
{
    match (left, right) {
        (Some(before), Some(after)) => {
            if before.colour == after.colour {
                Some(Run {
                    colour: before.colour,
                    len: before.len + after.len,
                })
            } else {
                None
            }
        }
        _ => None,
    }
}
