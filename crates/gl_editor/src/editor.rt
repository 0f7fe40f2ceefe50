//! The kind of a matcher's change.

ghost use Rattle.std.specs.Prelude.{◌≡◌};
ghost use Rattle.std.specs.List.{list_any};
ghost use Rattle.spec_lang.specs.Matcher.{all, nothing};
ghost use Rattle.spec_lang.specs.Kind as spec;

use gl_lang::{EditKind, Matcher, MatcherShape};

/// The kind of the change from one matcher to another, as a `MatcherEditor` of Glazed Lists announces it. It compares
/// every conjunct of one with those of the other, and takes no memory.
pub fn kind(old: &Matcher, new: &Matcher) -> EditKind
    ensures value { result ≡ spec.kind old.now new.now }
    ensures meaning { spec.Says result old.now new.now }
{
    first_rule(old, new)
}

fn first_rule(old: &Matcher, new: &Matcher) -> EditKind
    ensures { result ≡ spec.kind old.now new.now }
{
    if is_all(new) {
        return EditKind::All;
    }
    if is_nothing(new) {
        return EditKind::Nothing;
    }
    if are_among(conjuncts(old), conjuncts(new)) {
        return EditKind::Constrained;
    }
    if is_nothing(old) || are_among(conjuncts(new), conjuncts(old)) {
        return EditKind::Relaxed;
    }
    EditKind::Changed
}

fn is_all(m: &Matcher) -> bool
    ensures { result ≡ spec.same m.now all }
{
    same(m, &Matcher::all())
}

fn is_nothing(m: &Matcher) -> bool
    ensures { result ≡ spec.same m.now nothing }
{
    same(m, &Matcher::nothing())
}

// The parts of an `and`; any other matcher itself, and of `all` nothing.
fn conjuncts(m: &Matcher) -> &[Matcher]
    ensures { result.now ≡ spec.conjuncts m.now }
{
    match m.shape() {
        MatcherShape::All => &[],
        MatcherShape::And(parts) => parts,
        _ => std::slice::from_ref(m),
    }
}

// Whether each of these is written as one of those.
fn are_among(these: &[Matcher], those: &[Matcher]) -> bool
    ensures { result ≡ spec.are_among these.now those.now }
{
    for m in these {
        if !is_among(m, those) {
            return false;
        }
    }
    true
}

fn is_among(m: &Matcher, those: &[Matcher]) -> bool
    ensures { result ≡ list_any (spec.same m.now) those.now }
{
    for other in those {
        if same(m, other) {
            return true;
        }
    }
    false
}

fn same(m: &Matcher, n: &Matcher) -> bool
    ensures { result ≡ spec.same m.now n.now }
{
    m.same(n)
}
