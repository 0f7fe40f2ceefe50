//! A filter.

ghost use Rattle.std.specs.Prelude.{◌≡◌, ◌+◌, ◌<◌, ◌≤◌, ◌↔◌, List, length, map, slice_get, IsSome, IfOk, OnOk, OnErr};
ghost use Rattle.spec_views.specs.Tree.{Tree};
ghost use Rattle.spec_views.specs.Piece.{inverted};
ghost use Rattle.spec_views.specs.Leads.{LeadsTo, applied};
ghost use Rattle.spec_views.specs.Kind.{Says};
ghost use Rattle.spec_views.specs.Matcher.{accepts};
ghost use Rattle.spec_views.specs.Filter.{filter_view, filter_follow, filter_change};
ghost use Rattle.gl_barcode.specs.Bars.{count_shown};
ghost use Rattle.gl_kernel.specs.Found.{found};
ghost use Rattle.gl_filter.specs.Told.{asked, change_cost};
ghost use Rattle.gl_filter.specs.Stands.{StandsFor, contents, before, CanRetreat, IsUndo};

use crate::follow::follow;
use crate::marks::Marking;
use gl_barcode::Barcode;
use gl_delta::{Delta, Find};
use gl_kernel::{LogStep, apply, element, take_back};
use gl_lang::{EditKind, Matcher};
use gl_value::{Shelf, Steps};
use std::alloc::{AllocError, Global};
use std::marker::Model;
use std::mem;
use std::sync::ledger::Ledger;

/// The elements of a list that a matcher accepts, in their order: the FilterList of Glazed Lists. The list itself isn't
/// kept, but for each of its elements whether it is shown.
#[derive(Drop)]
pub struct Filter {
    alloc: Global,
    pub(crate) matcher: Matcher,
    pub(crate) marks: Barcode,
}

impl Model for Filter {
    ghost use Rattle.gl_filter.specs.Kept.{Kept, kept_code};

    ghost Value = { Kept };

    ghost coded = { kept_code };

    ghost view = { λ f. record { matcher = f.matcher; shown = f.marks.shown; room = f.marks.room } };
}

/// What takes a filter back to where it stood before a change.
#[derive(Drop)]
pub struct FilterUndo {
    pub(crate) matcher: Option<Matcher>,
    pub(crate) log: Vec<LogStep<bool>>,
}

impl Filter {
    /// The filter of a list. It asks the matcher about each element.
    pub fn make<S: Shelf, L: Ledger>(
        alloc: Global,
        param: Matcher,
        input: &S,
        steps: &mut Steps<L>,
    ) -> Result<Filter, AllocError>
        requires few { length (S.items input.now) ≤ 2147483647 }
        ensures stands { IfOk result (λ filter. StandsFor filter (S.items input.now)) }
        ensures matcher { IfOk result (λ filter. filter.matcher ≡ param) }
        ensures counted { steps.new ≤ steps.old + length (S.items input.now) }
    {
        let mut marking = Marking::new(alloc);
        for position in 0..input.len() {
            let shown = param.accepts(element(input, position), steps);
            marking.push(shown)?;
        }
        Ok(Filter {
            alloc,
            matcher: param,
            marks: marking.finish()?,
        })
    }

    /// Follows a change of the list, whose new side is `input`. It asks the matcher once for each inserted and each updated
    /// element; kept ones are passed over in one step for each stretch of them.
    pub fn advance<S: Shelf, L: Ledger>(
        &mut self,
        input: &S,
        d: &Delta,
        steps: &mut Steps<L>,
    ) -> Result<(Delta, FilterUndo), AllocError>
        requires leads { LeadsTo d.now.pieces (S.items input.now) }
        requires stands { StandsFor self.old
            (applied (map inverted d.now.pieces) (S.items input.now)) }
        ensures pieces { IfOk result (λ told. told.0.pieces
            ≡ filter_follow (accepts self.old.matcher) (applied (map inverted d.now.pieces) (S.items input.now)) d.now.pieces) }
        ensures stands { OnOk result (StandsFor self.new (S.items input.now)) }
        ensures undo { IfOk result (λ told. IsUndo told.1 self.old self.new) }
        ensures err { OnErr result (contents self.new ≡ contents self.old) }
        ensures matcher { self.new.matcher ≡ self.old.matcher }
        ensures room { self.old.room ≤ self.new.room }
        ensures counted { steps.new ≤ steps.old + asked d.now.pieces }
    {
        let _ = input;
        let _olds = d.old_len();
        let _news = d.new_len();
        let plan = follow(self.alloc, &self.matcher, &self.marks, d, steps)?;
        let log = apply(self.alloc, &mut self.marks, plan.log)?;
        Ok((plan.out, FilterUndo { matcher: None, log }))
    }

    /// Takes another matcher in place of the one that it shows by. The kind of the change says which elements it need not
    /// ask about: it asks about none, about those that are shown, about those that are hidden, or about all.
    pub fn change<S: Shelf, L: Ledger>(
        &mut self,
        param: Matcher,
        kind: EditKind,
        input: &S,
        steps: &mut Steps<L>,
    ) -> Result<(Delta, FilterUndo), AllocError>
        requires stands { StandsFor self.old (S.items input.now) }
        requires says { Says kind self.old.matcher param }
        requires few { length (S.items input.now) ≤ 2147483647 }
        ensures pieces { IfOk result (λ told. told.0.pieces
            ≡ filter_change (accepts self.old.matcher) (accepts param) (S.items input.now)) }
        ensures stands { OnOk result (StandsFor self.new (S.items input.now)) }
        ensures matcher { OnOk result (self.new.matcher ≡ param) }
        ensures undo { IfOk result (λ told. IsUndo told.1 self.old self.new) }
        ensures err { OnErr result (contents self.new ≡ contents self.old) }
        ensures room { self.old.room ≤ self.new.room }
        ensures counted { steps.new ≤ steps.old + change_cost kind self.old.shown }
    {
        let plan = self.replan(self.alloc, &param, kind, input, steps)?;
        let log = apply(self.alloc, &mut self.marks, plan.log)?;
        let old = mem::replace(&mut self.matcher, param);
        Ok((
            plan.out,
            FilterUndo {
                matcher: Some(old),
                log,
            },
        ))
    }

    /// Goes back to where the filter stood before its last change, whose undo this is. It takes no memory.
    pub fn retreat(&mut self, undo: FilterUndo)
        requires { CanRetreat undo self.old }
        ensures back { contents self.new ≡ before undo self.old }
        ensures room { self.old.room ≤ self.new.room }
    {
        let FilterUndo { matcher, log } = undo;
        take_back(&mut self.marks, log);
        if let Some(matcher) = matcher {
            self.matcher = matcher;
        }
    }

    /// How many elements are shown.
    pub fn len(&self) -> usize
        ensures view { (xs : List Tree) → StandsFor self.now xs
            → result ≡ length (filter_view (accepts self.now.matcher) xs) }
        ensures len { result ≡ count_shown self.now.shown }
    {
        self.marks.shown_len()
    }

    /// Where the element that is shown at a place stands, or `None` exactly where the place isn't below the length.
    pub fn find(&self, position: usize) -> Option<Find<'_>>
        ensures some { IsSome result ↔ (position < count_shown self.now.shown) }
        ensures found { (xs : List Tree) → StandsFor self.now xs
            → found result xs ≡ slice_get (filter_view (accepts self.now.matcher) xs) position }
    {
        match self.marks.select(position) {
            Some(at) => Some(Find::Input(at)),
            None => None,
        }
    }

    /// The matcher that it shows by.
    pub fn matcher(&self) -> &Matcher
        ensures { result.now ≡ self.now.matcher }
    {
        &self.matcher
    }
}
