//! Matchers.

ghost use Rattle.std.specs.Prelude.{◌≡◌, ◌∷◌, ◌++◌, ◌<◌, [], length, codes, MatchResult, IfOk};
ghost use Rattle.spec_syntax.specs.Reader.{found, close, made, table};
ghost use Rattle.spec_lang.specs.Matcher as meant;
ghost use Rattle.spec_syntax.specs.Matcher.{test_words};
ghost use Rattle.spec_syntax.specs.LanguageReader.{read_tested, read_comparison, read_joined, read_chain, read_formed, read_unit, read_matcher};
ghost use Rattle.gl_syntax.specs.Stop.{Reads, IsStop};
ghost use Rattle.gl_line_reader.specs.Chains.{joint_of, opened, constant, put, finish, all_parts, any_part, read_part, read_others};

use crate::path::path_ahead;
use crate::table::row_ahead;
use gl_lang::{Matcher, Matchers, Test};
use gl_syntax::{Memory, Stop, begins_with, value_ahead, word};
use gl_value::Value;
use std::alloc::Global;

const TESTS: [(&str, Test); 6] = [
    (" = ", Test::Eq),
    (" != ", Test::Ne),
    (" < ", Test::Lt),
    (" <= ", Test::Le),
    (" > ", Test::Gt),
    (" >= ", Test::Ge),
];

#[derive(Clone, Copy)]
enum Joint {
    And,
    Or,
}

const JOINTS: [(&str, Joint); 2] = [(" and ", Joint::And), (" or ", Joint::Or)];

// What a unit that begins with a word is.
#[derive(Clone, Copy)]
enum Opening {
    Not,
    Enclosed,
    All,
    Nothing,
}

const OPENINGS: [(&str, Opening); 4] = [
    ("not ", Opening::Not),
    ("(", Opening::Enclosed),
    ("all", Opening::All),
    ("none", Opening::Nothing),
];

// Whether everything is accepted or nothing.
const CONSTANTS: [(&str, bool); 2] = [("all", true), ("none", false)];

/// The matcher and the bytes after it. It takes memory for the matcher, and recurses once a level of nesting, of which
/// there are 8 at most.
pub(crate) fn matcher_ahead(alloc: Global, bytes: &[u8]) -> Result<(Matcher, &[u8]), Stop>
    ensures { Reads result (read_matcher bytes.now) }
{
    chain_ahead(alloc, 8, bytes)
}

// Units, nested at most so deep, with ` and ` or ` or ` between every two, and the bytes after them.
#[cycle(matcher)]
#[tactic(auto, using(crate::proofs::Chains::chain_stops))]
fn chain_ahead(alloc: Global, depth: usize, bytes: &[u8]) -> Result<(Matcher, &[u8]), Stop>
    ensures { Reads result (read_chain (read_unit depth) bytes.now) }
{
    let (first, rest) = unit_ahead(alloc, depth, bytes)?;
    let units = with_matcher(Matchers::new(alloc), first)?;
    chain_from(alloc, depth, (Matchers::new(alloc), units), rest)
}

// The matcher of these parts and the units after them.
#[cycle(matcher)]
fn chain_from(
    alloc: Global,
    depth: usize,
    parts: (Matchers, Matchers),
    bytes: &[u8],
) -> Result<(Matcher, &[u8]), Stop>
    requires { 0 < length parts.1 }
    ensures { Reads result (made finish (read_others (read_unit depth) parts bytes.now)) }
{
    let (parts, rest) = others_ahead(alloc, depth, parts, bytes)?;
    let matcher = finished(parts)?;
    Ok((matcher, rest))
}

// The whole parts of an `or` and the units of the one that goes on, with the units after them.
#[cycle(matcher)]
#[tactic(auto, using(spec_syntax::proofs::Folds::folded_ends, spec_syntax::proofs::Folds::folded_stops))]
fn others_ahead(
    alloc: Global,
    depth: usize,
    parts: (Matchers, Matchers),
    bytes: &[u8],
) -> Result<((Matchers, Matchers), &[u8]), Stop>
    requires { 0 < length parts.1 }
    ensures read { Reads result (read_others (read_unit depth) parts bytes.now) }
    ensures some { IfOk result (λ x. 0 < length x.0.1) }
{
    let mut parts = parts;
    let mut rest = bytes;
    'units: while begins_with(b' ', rest) {
        let ((joint, unit), others) = joined_ahead(alloc, depth, rest)?;
        parts = joined(alloc, parts, joint, unit)?;
        rest = others;
    }
    Ok((parts, rest))
}

#[cycle(matcher)]
#[tactic(auto, using(crate::proofs::Chains::joined_on, crate::proofs::Chains::joined_stops))]
fn joined_ahead(
    alloc: Global,
    depth: usize,
    bytes: &[u8],
) -> Result<((Joint, Matcher), &[u8]), Stop>
    ensures { MatchResult result
        (λ x. read_part (read_unit depth) bytes.now ≡ found (joint_of x.0.0, x.0.1) x.1.now)
        (IsStop (read_part (read_unit depth) bytes.now)) }
{
    let (joint, rest) = row_ahead(&JOINTS, bytes)?;
    joined_after(alloc, depth, joint, rest)
}

#[cycle(matcher)]
fn joined_after(
    alloc: Global,
    depth: usize,
    joint: Joint,
    bytes: &[u8],
) -> Result<((Joint, Matcher), &[u8]), Stop>
    ensures { MatchResult result
        (λ x. read_joined (read_unit depth) (joint_of joint) bytes.now ≡ found (joint_of x.0.0, x.0.1) x.1.now)
        (IsStop (read_joined (read_unit depth) (joint_of joint) bytes.now)) }
{
    let (unit, rest) = unit_ahead(alloc, depth, bytes)?;
    Ok(((joint, unit), rest))
}

// The unit, nested at most so deep, and the bytes after it.
#[cycle(matcher)]
#[tactic(auto, using(crate::proofs::Chains::unit_compares, crate::proofs::Chains::unit_flat_on, crate::proofs::Chains::unit_flat_stops, crate::proofs::Chains::unit_on, crate::proofs::Chains::unit_stops))]
fn unit_ahead(alloc: Global, depth: usize, bytes: &[u8]) -> Result<(Matcher, &[u8]), Stop>
    ensures { Reads result (read_unit depth bytes.now) }
{
    if begins_with(b'.', bytes) {
        return comparison_ahead(alloc, bytes);
    }
    if depth == 0 {
        let (everything, rest) = row_ahead(&CONSTANTS, bytes)?;
        return Ok((constant(everything), rest));
    }
    let (opening, rest) = row_ahead(&OPENINGS, bytes)?;
    opened_ahead(alloc, depth - 1, opening, rest)
}

fn constant(everything: bool) -> Matcher
    ensures { result ≡ constant everything }
{
    if everything {
        Matcher::all()
    } else {
        Matcher::nothing()
    }
}

// The unit that the word began, and the bytes after it.
#[cycle(matcher)]
fn opened_ahead(
    alloc: Global,
    depth: usize,
    opening: Opening,
    bytes: &[u8],
) -> Result<(Matcher, &[u8]), Stop>
    ensures { Reads result (read_formed (read_unit depth) (opened opening) bytes.now) }
{
    match opening {
        Opening::Not => negated_ahead(alloc, depth, bytes),
        Opening::Enclosed => enclosed_ahead(alloc, depth, bytes),
        Opening::All => Ok((Matcher::all(), bytes)),
        Opening::Nothing => Ok((Matcher::nothing(), bytes)),
    }
}

#[cycle(matcher)]
fn negated_ahead(alloc: Global, depth: usize, bytes: &[u8]) -> Result<(Matcher, &[u8]), Stop>
    ensures { Reads result (made meant.negation (read_unit depth bytes.now)) }
{
    let (part, rest) = unit_ahead(alloc, depth, bytes)?;
    let own = boxed(alloc, part)?;
    Ok((Matcher::not(own), rest))
}

#[cycle(matcher)]
#[tactic(auto, using(spec_syntax::proofs::Joints::close_on, spec_syntax::proofs::Joints::close_stops, spec_syntax::proofs::Joints::close_ends))]
fn enclosed_ahead(alloc: Global, depth: usize, bytes: &[u8]) -> Result<(Matcher, &[u8]), Stop>
    ensures { Reads result (close (read_chain (read_unit depth)) (codes ")") bytes.now) }
{
    let (matcher, rest) = chain_ahead(alloc, depth, bytes)?;
    let after_word = word(b")", rest)?;
    Ok((matcher, after_word))
}

fn comparison_ahead(alloc: Global, bytes: &[u8]) -> Result<(Matcher, &[u8]), Stop>
    ensures { Reads result (read_comparison bytes.now) }
{
    let (path, rest) = path_ahead(alloc, bytes)?;
    let ((test, literal), rest) = tested_ahead(alloc, rest)?;
    Ok((Matcher::is(path, test, literal), rest))
}

// The test, the literal and the bytes after it.
#[tactic(auto, using(crate::proofs::Chains::tested_on, crate::proofs::Chains::tested_stops))]
fn tested_ahead(alloc: Global, bytes: &[u8]) -> Result<((Test, Value), &[u8]), Stop>
    ensures { Reads result (table read_tested test_words bytes.now) }
{
    let (test, rest) = row_ahead(&TESTS, bytes)?;
    literal_ahead(alloc, test, rest)
}

fn literal_ahead(alloc: Global, test: Test, bytes: &[u8]) -> Result<((Test, Value), &[u8]), Stop>
    ensures { Reads result (read_tested test bytes.now) }
{
    let (literal, rest) = value_ahead(alloc, 64, bytes)?;
    Ok(((test, literal), rest))
}

// One unit more.
fn joined(
    alloc: Global,
    parts: (Matchers, Matchers),
    joint: Joint,
    unit: Matcher,
) -> Result<(Matchers, Matchers), Memory>
    requires { 0 < length parts.1 }
    ensures value { IfOk result (λ more. more ≡ put parts (joint_of joint, unit)) }
    ensures some { IfOk result (λ more. 0 < length more.1) }
{
    let (choices, units) = parts;
    match joint {
        Joint::And => {
            let units = with_matcher(units, unit)?;
            Ok((choices, units))
        }
        Joint::Or => {
            let choices = with_matcher(choices, all_of(units))?;
            let units = with_matcher(Matchers::new(alloc), unit)?;
            Ok((choices, units))
        }
    }
}

// The matcher of all parts.
fn finished(parts: (Matchers, Matchers)) -> Result<Matcher, Memory>
    requires { 0 < length parts.1 }
    ensures { IfOk result (λ m. m ≡ finish parts) }
{
    let choices = with_matcher(parts.0, all_of(parts.1))?;
    Ok(any_of(choices))
}

#[tactic(auto, using(crate::proofs::Chains::all_more, crate::proofs::Chains::all_one))]
fn all_of(units: Matchers) -> Matcher
    requires { 0 < length units }
    ensures { result ≡ all_parts units }
{
    if units.len() > 1 {
        return Matcher::and(units);
    }
    sole(units)
}

#[tactic(auto, using(crate::proofs::Chains::any_more, crate::proofs::Chains::any_one))]
fn any_of(choices: Matchers) -> Matcher
    requires { 0 < length choices }
    ensures { result ≡ any_part choices }
{
    if choices.len() > 1 {
        return Matcher::or(choices);
    }
    sole(choices)
}

#[tactic(auto, using(crate::proofs::Chains::only_one))]
fn sole(parts: Matchers) -> Matcher
    requires { length parts ≡ 1 }
    ensures { result ∷ [] ≡ parts }
{
    let mut parts = parts.into_vec();
    match parts.pop() {
        Some(part) => part,
        None => unreachable!(),
    }
}

fn with_matcher(mut matchers: Matchers, matcher: Matcher) -> Result<Matchers, Memory>
    ensures { IfOk result (λ more. more ≡ matchers ++ matcher ∷ []) }
{
    match matchers.push(matcher) {
        Ok(()) => Ok(matchers),
        Err((_, failed)) => Err(failed),
    }
}

fn boxed(alloc: Global, matcher: Matcher) -> Result<Box<Matcher>, Memory>
    ensures { IfOk result (λ own. own.value ≡ matcher) }
{
    let own = Box::new(alloc, matcher)?;
    Ok(own)
}
