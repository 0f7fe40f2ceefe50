//! Lines that are numbered as they are added.

ghost use Rattle.std.specs.Prelude.{◌≡◌, ◌∷◌, ◌++◌, [], OnOk};
ghost use Rattle.spec_plans.specs.Numbered.{numbered as numbered_from};

use gl_lines::{Line, Lines, NumberedLine};
use gl_value::Memory;
use std::alloc::Global;
use std::marker::Model;

/// The lines of a plan after its first one, each by its number in the text. Contracts see what they say.
#[derive(Drop)]
pub(crate) struct LinesSoFar {
    lines: Lines,
}

impl Model for LinesSoFar {
    ghost use Rattle.std.specs.Prelude.{List};
    ghost use Rattle.std.specs.Coded.{codes};
    ghost use Rattle.spec_lang.specs.Code.{tree_code};
    ghost use Rattle.spec_lang.specs.MatcherCode.{matcher_code};
    ghost use Rattle.spec_lang.specs.FuncCode.{func_code};
    ghost use Rattle.gl_lines.specs.declared.line.Line.{Line as LineData};
    ghost use Rattle.gl_big.specs.Lines.{said, AreNumbered};

    ghost Value = { List LineData };

    ghost coded = { Prim.hlevel (codes, tree_code, matcher_code, func_code) };

    ghost view = { λ l. said l.lines };

    ghost invariant = { λ l. AreNumbered l.lines };
}

impl LinesSoFar {
    /// No lines, which take no memory.
    pub(crate) fn new(alloc: Global) -> LinesSoFar
        ensures { result ≡ [] }
    {
        LinesSoFar {
            lines: Lines::new(alloc),
        }
    }

    /// Adds a line at the end. It is given up where there is no memory for it.
    #[tactic(auto, using(crate::proofs::Numbering::said_more, crate::proofs::Numbering::numbered_more))]
    pub(crate) fn add(&mut self, what: Line) -> Result<(), Memory>
        ensures { OnOk result (self.new ≡ self.old ++ what ∷ []) }
    {
        let line = self.lines.as_slice().len() as u64 + 2;
        self.lines.add(NumberedLine { line, what })
    }

    /// The lines, numbered from 2 on.
    pub(crate) fn into_lines(self) -> Lines
        ensures { result ≡ numbered_from 2 self }
    {
        self.lines
    }
}
