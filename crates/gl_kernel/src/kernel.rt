//! What a list that follows one other list does.

ghost use Rattle.std.specs.Prelude.{◌≡◌, ◌≤◌, List, length, map, slice_get, IfOk, OnOk, OnErr};
ghost use Rattle.spec_value.specs.Tree.{Tree};
ghost use Rattle.spec_lists.specs.Piece.{inverted};
ghost use Rattle.spec_lists.specs.Leads.{LeadsTo, applied};
ghost use Rattle.gl_kernel.specs.Found.{found};

use gl_delta::{Delta, Find};
use gl_value::{Shelf, Steps};
use spec_lang::EditKind;
use std::alloc::AllocError;
use std::sync::ledger::Ledger;

/// A list over one input, as a filter, a range or a function list: it follows what its input tells, takes another
/// parameter in place of its own, and goes back. It keeps its input's elements only so far as it needs them to tell of a
/// change; what else it reads it is handed.
///
/// The calls are the same for all kinds, so that what holds lists of different kinds treats them alike. So each kind is
/// handed what one of them needs: `input`, which a filter and a function list needn't read to follow a change of it, and
/// `kind` and `steps`, since only a matcher is changed in one of several ways and is asked in steps that are counted.
pub trait Kernel {
    /// What it shows its input by: a matcher, bounds, a function.
    type Param: Drop;

    /// What takes it back to where it stood before its last change.
    type Undo: Drop;

    ghost use Rattle.std.specs.Prelude.{List};
    ghost use Rattle.spec_value.specs.Tree.{Tree};
    ghost use Rattle.spec_lists.specs.Piece.{Piece};
    ghost use Rattle.spec_lang.specs.declared.EditKind.{EditKind};

    // What it shows by.
    ghost shows_by: { Self → Self.Param };

    // It keeps what it has to keep of this input.
    ghost stands_for: { Self → List Tree → Type 0 };

    // What is shown of an input.
    ghost view: { Self.Param → List Tree → List Tree };

    // What is told of the change of an input by these pieces.
    ghost follow: { Self.Param → List Tree → List Piece → List Piece };

    // What is told of another parameter.
    ghost change_told: { Self.Param → Self.Param → List Tree → List Piece };

    // A kind of change holds of two parameters.
    ghost says: { EditKind → Self.Param → Self.Param → Type 0 };

    // The one is what the other is, whatever their room.
    ghost is_same: { Self → Self → Type 0 };

    // The undo is of the change that led from the one to the other.
    ghost is_undo: { Self.Undo → Self → Self → Type 0 };

    // There is the room for the way back, which leads from the one to the other.
    ghost can_retreat: { Self.Undo → Self → Type 0 };

    ghost leads_back: { Self.Undo → Self → Self → Type 0 };

    /// Follows a change of its input, which is `input` then.
    fn advance<S: Shelf, L: Ledger>(
        &mut self,
        input: &S,
        d: &Delta,
        steps: &mut Steps<L>,
    ) -> Result<(Delta, Self::Undo), AllocError>
        requires leads { LeadsTo d.now.pieces (S.items input.now) }
        requires stands { stands_for self.old
            (applied (map inverted d.now.pieces) (S.items input.now)) }
        ensures pieces { IfOk result (λ told. told.0.pieces
            ≡ follow (shows_by self.old) (applied (map inverted d.now.pieces) (S.items input.now)) d.now.pieces) }
        ensures stands { OnOk result (stands_for self.new (S.items input.now)) }
        ensures undo { IfOk result (λ told. is_undo told.1 self.old self.new) }
        ensures err { OnErr result (is_same self.old self.new) }
        ensures param { shows_by self.new ≡ shows_by self.old };

    /// Takes another parameter in place of its own.
    fn change<S: Shelf, L: Ledger>(
        &mut self,
        param: Self::Param,
        kind: EditKind,
        input: &S,
        steps: &mut Steps<L>,
    ) -> Result<(Delta, Self::Undo), AllocError>
        requires stands { stands_for self.old (S.items input.now) }
        requires says { says kind (shows_by self.old) param }
        requires few { length (S.items input.now) ≤ 2147483647 }
        ensures pieces { IfOk result (λ told. told.0.pieces
            ≡ change_told (shows_by self.old) param (S.items input.now)) }
        ensures stands { OnOk result (stands_for self.new (S.items input.now)) }
        ensures param { OnOk result (shows_by self.new ≡ param) }
        ensures undo { IfOk result (λ told. is_undo told.1 self.old self.new) }
        ensures err { OnErr result (is_same self.old self.new) };

    /// Goes back to where it stood before its last change, whose undo this is. It takes no memory.
    fn retreat(&mut self, undo: Self::Undo)
        requires { can_retreat undo self.old }
        ensures { leads_back undo self.old self.new };

    /// How many elements are shown.
    fn len(&self) -> usize
        ensures { (xs : List Tree) → stands_for self.now xs
            → result ≡ length (view (shows_by self.now) xs) };

    /// Where the element that is shown at a place stands, `None` where no more are shown.
    fn find(&self, position: usize) -> Option<Find<'_>>
        ensures { (xs : List Tree) → stands_for self.now xs
            → found result xs ≡ slice_get (view (shows_by self.now) xs) position };
}
