//! Matchers.

ghost use Rattle.std.specs.Prelude.{◌≡◌, ◌++◌, OnOk};
ghost use Rattle.spec_lang.specs.Matcher as meant;
ghost use Rattle.spec_syntax.specs.Spelled.{spelled_test, is_joined, is_choice, enclosed_if, spelled_matcher, spelled_units, spelled_other_units, spelled_choices, spelled_other_choices};
ghost use Rattle.gl_line_writer.specs.Pieces.{unit_text, choice_text, unit_after_and, choice_after_or};

use crate::path::add_path;
use gl_lang::{Matcher, MatcherShape, Path, Test};
use gl_syntax::{Bytes, Memory, Value, add_value};

/// Adds the matcher, with the parentheses that it needs and no others. It recurses once a level of nesting. Where
/// memory runs out part of it may be added.
#[cycle(matcher)]
pub fn add_matcher(matcher: &Matcher, out: &mut Bytes) -> Result<(), Memory>
    ensures { OnOk result (out.new ≡ out.old ++ spelled_matcher matcher.now) }
{
    match matcher.shape() {
        MatcherShape::All => out.push_all(b"all"),
        MatcherShape::Nothing => out.push_all(b"none"),
        MatcherShape::Is {
            path,
            test,
            literal,
        } => add_comparison(path, test, literal, out),
        MatcherShape::Not(part) => add_negation(part, out),
        MatcherShape::And(parts) => add_units(parts, out),
        MatcherShape::Or(parts) => add_choices(parts, out),
    }
}

fn add_comparison(path: &Path, test: Test, literal: &Value, out: &mut Bytes) -> Result<(), Memory>
    ensures { OnOk result
        (out.new ≡ out.old ++ spelled_matcher (meant.is path.now test literal.now)) }
{
    add_path(path, out)?;
    out.push_all(test_word(test))?;
    add_value(literal, out)
}

fn test_word(test: Test) -> &'static [u8]
    ensures { result.now ≡ spelled_test test }
{
    match test {
        Test::Eq => b" = ",
        Test::Ne => b" != ",
        Test::Lt => b" < ",
        Test::Le => b" <= ",
        Test::Gt => b" > ",
        Test::Ge => b" >= ",
    }
}

#[cycle(matcher)]
fn add_negation(part: &Matcher, out: &mut Bytes) -> Result<(), Memory>
    ensures { OnOk result (out.new ≡ out.old ++ spelled_matcher (meant.negation part.now)) }
{
    out.push_all(b"not ")?;
    add_unit(part, out)
}

// The parts of an `and`.
#[cycle(matcher)]
fn add_units(parts: &[Matcher], out: &mut Bytes) -> Result<(), Memory>
    ensures { OnOk result (out.new ≡ out.old ++ spelled_units (meant.matchers parts.now)) }
{
    match parts {
        [] => Ok(()),
        [first, others @ ..] => {
            add_unit(first, out)?;
            add_other_units(others, out)
        }
    }
}

#[cycle(matcher)]
fn add_other_units(parts: &[Matcher], out: &mut Bytes) -> Result<(), Memory>
    ensures { OnOk result (out.new ≡ out.old ++ spelled_other_units (meant.matchers parts.now)) }
{
    'parts: for part in parts {
        add_after_and(part, out)?;
    }
    Ok(())
}

#[cycle(matcher)]
fn add_after_and(part: &Matcher, out: &mut Bytes) -> Result<(), Memory>
    ensures { OnOk result (out.new ≡ out.old ++ unit_after_and part.now) }
{
    out.push_all(b" and ")?;
    add_unit(part, out)
}

// The parts of an `or`.
#[cycle(matcher)]
fn add_choices(parts: &[Matcher], out: &mut Bytes) -> Result<(), Memory>
    ensures { OnOk result (out.new ≡ out.old ++ spelled_choices (meant.matchers parts.now)) }
{
    match parts {
        [] => Ok(()),
        [first, others @ ..] => {
            add_choice(first, out)?;
            add_other_choices(others, out)
        }
    }
}

#[cycle(matcher)]
fn add_other_choices(parts: &[Matcher], out: &mut Bytes) -> Result<(), Memory>
    ensures { OnOk result (out.new ≡ out.old ++ spelled_other_choices (meant.matchers parts.now)) }
{
    'parts: for part in parts {
        add_after_or(part, out)?;
    }
    Ok(())
}

#[cycle(matcher)]
fn add_after_or(part: &Matcher, out: &mut Bytes) -> Result<(), Memory>
    ensures { OnOk result (out.new ≡ out.old ++ choice_after_or part.now) }
{
    out.push_all(b" or ")?;
    add_choice(part, out)
}

// A part of an `and`, or what stands after a `not`.
#[cycle(matcher)]
fn add_unit(part: &Matcher, out: &mut Bytes) -> Result<(), Memory>
    ensures { OnOk result (out.new ≡ out.old ++ unit_text part.now) }
{
    add_enclosed_if(is_joined(part), part, out)
}

// A part of an `or`.
#[cycle(matcher)]
fn add_choice(part: &Matcher, out: &mut Bytes) -> Result<(), Memory>
    ensures { OnOk result (out.new ≡ out.old ++ choice_text part.now) }
{
    add_enclosed_if(is_choice(part), part, out)
}

#[cycle(matcher)]
fn add_enclosed_if(enclosed: bool, part: &Matcher, out: &mut Bytes) -> Result<(), Memory>
    ensures { OnOk result (out.new ≡ out.old ++ enclosed_if enclosed (spelled_matcher part.now)) }
{
    if !enclosed {
        return add_matcher(part, out);
    }
    out.push_all(b"(")?;
    add_matcher(part, out)?;
    out.push_all(b")")
}

// Whether it stands between parentheses inside an `and` and after a `not`.
fn is_joined(matcher: &Matcher) -> bool
    ensures { result ≡ is_joined matcher.now }
{
    match matcher.shape() {
        MatcherShape::All => false,
        MatcherShape::Nothing => false,
        MatcherShape::Is { .. } => false,
        MatcherShape::Not(_) => false,
        MatcherShape::And(_) => true,
        MatcherShape::Or(_) => true,
    }
}

// Whether it stands between parentheses inside an `or`.
fn is_choice(matcher: &Matcher) -> bool
    ensures { result ≡ is_choice matcher.now }
{
    match matcher.shape() {
        MatcherShape::All => false,
        MatcherShape::Nothing => false,
        MatcherShape::Is { .. } => false,
        MatcherShape::Not(_) => false,
        MatcherShape::And(_) => false,
        MatcherShape::Or(_) => true,
    }
}
