//! Functions.

ghost use Rattle.std.specs.Prelude.{◌≡◌, ◌∷◌, ◌++◌, [], codes, IfOk};
ghost use Rattle.spec_syntax.specs.Reader.{after_word, close, sep};
ghost use Rattle.spec_syntax.specs.ValueReader.{read_elements, read_others};
ghost use Rattle.spec_syntax.specs.LanguageReader.{read_path, read_flat_func, read_func, read_adding, read_listing};
ghost use Rattle.gl_syntax.specs.Stop.{Reads};

use crate::path::path_ahead;
use gl_lang::{Func, Funcs, Path};
use gl_syntax::{Memory, Stop, begins_with, number_ahead, text_ahead, word};
use std::alloc::Global;

/// The function, nested at most so deep, and the bytes after it. It takes memory for the function.
#[cycle(func)]
#[tactic(auto, using(crate::proofs::Funcs::func_adding, crate::proofs::Funcs::func_listing, crate::proofs::Funcs::func_flat, crate::proofs::Funcs::func_end))]
pub(crate) fn func_ahead(alloc: Global, depth: usize, bytes: &[u8]) -> Result<(Func, &[u8]), Stop>
    ensures { Reads result (read_func depth bytes.now) }
{
    if depth == 0 {
        return flat_ahead(alloc, bytes);
    }
    if begins_with(b'a', bytes) {
        return adding_ahead(alloc, depth - 1, bytes);
    }
    if begins_with(b'[', bytes) {
        return listing_ahead(alloc, depth - 1, bytes);
    }
    flat_ahead(alloc, bytes)
}

#[cycle(func)]
#[tactic(auto, using(crate::proofs::Parts::inside_found, crate::proofs::Parts::inside_stops, crate::proofs::Parts::inside_stops_within, crate::proofs::Parts::inside_stops_last))]
fn adding_ahead(alloc: Global, depth: usize, bytes: &[u8]) -> Result<(Func, &[u8]), Stop>
    ensures { Reads result (read_adding (read_func depth) bytes.now) }
{
    let inside = word(b"add(", bytes)?;
    let ((first, second), rest) = pair_ahead(alloc, depth, inside)?;
    let after_word = word(b")", rest)?;
    let first = boxed(alloc, first)?;
    let second = boxed(alloc, second)?;
    Ok((Func::add(first, second), after_word))
}

#[cycle(func)]
fn pair_ahead(alloc: Global, depth: usize, bytes: &[u8]) -> Result<((Func, Func), &[u8]), Stop>
    ensures { Reads result (sep (read_func depth) (codes ",") (read_func depth) bytes.now) }
{
    let (first, rest) = func_ahead(alloc, depth, bytes)?;
    let (second, rest) = after_comma(alloc, depth, rest)?;
    Ok(((first, second), rest))
}

fn boxed(alloc: Global, func: Func) -> Result<Box<Func>, Memory>
    ensures { IfOk result (λ own. own.value ≡ func) }
{
    let own = Box::new(alloc, func)?;
    Ok(own)
}

#[cycle(func)]
#[tactic(auto, using(crate::proofs::Parts::inside_found, crate::proofs::Parts::inside_stops, crate::proofs::Parts::inside_stops_within, crate::proofs::Parts::inside_stops_last))]
fn listing_ahead(alloc: Global, depth: usize, bytes: &[u8]) -> Result<(Func, &[u8]), Stop>
    ensures { Reads result (read_listing (read_func depth) bytes.now) }
{
    let inside = word(b"[", bytes)?;
    let (parts, rest) = elements_ahead(alloc, depth, inside)?;
    let after_word = word(b"]", rest)?;
    Ok((Func::items(parts), after_word))
}

#[cycle(func)]
#[tactic(auto, using(spec_syntax::proofs::Enclosed::elements_none, spec_syntax::proofs::Enclosed::elements_stop))]
fn elements_ahead(alloc: Global, depth: usize, bytes: &[u8]) -> Result<(Funcs, &[u8]), Stop>
    ensures { Reads result (read_elements (read_func depth) bytes.now) }
{
    if begins_with(b']', bytes) {
        return Ok((Funcs::new(alloc), bytes));
    }
    let (first, rest) = func_ahead(alloc, depth, bytes)?;
    let funcs = with_func(Funcs::new(alloc), first)?;
    others_ahead(alloc, depth, funcs, rest)
}

// The functions with those after them.
#[cycle(func)]
#[tactic(auto, using(spec_syntax::proofs::Folds::folded_ends, spec_syntax::proofs::Folds::folded_stops))]
fn others_ahead(
    alloc: Global,
    depth: usize,
    funcs: Funcs,
    bytes: &[u8],
) -> Result<(Funcs, &[u8]), Stop>
    ensures { Reads result (read_others (read_func depth) funcs bytes.now) }
{
    let mut funcs = funcs;
    let mut rest = bytes;
    'funcs: while begins_with(b',', rest) {
        let (func, others) = after_comma(alloc, depth, rest)?;
        funcs = with_func(funcs, func)?;
        rest = others;
    }
    Ok((funcs, rest))
}

#[cycle(func)]
#[tactic(auto, using(spec_syntax::proofs::Joints::after_on, spec_syntax::proofs::Joints::later_stops))]
fn after_comma(alloc: Global, depth: usize, bytes: &[u8]) -> Result<(Func, &[u8]), Stop>
    ensures { Reads result (after_word (codes ",") (read_func depth) bytes.now) }
{
    let rest = word(b",", bytes)?;
    func_ahead(alloc, depth, rest)
}

fn with_func(mut funcs: Funcs, func: Func) -> Result<Funcs, Memory>
    ensures { IfOk result (λ more. more ≡ funcs ++ func ∷ []) }
{
    match funcs.push(func) {
        Ok(()) => Ok(funcs),
        Err((_, failed)) => Err(failed),
    }
}

fn flat_ahead(alloc: Global, bytes: &[u8]) -> Result<(Func, &[u8]), Stop>
    ensures { Reads result (read_flat_func bytes.now) }
{
    if begins_with(b'.', bytes) {
        let (path, rest) = path_ahead(alloc, bytes)?;
        return Ok((Func::at(path), rest));
    }
    if begins_with(b'"', bytes) {
        let (text, rest) = text_ahead(alloc, bytes)?;
        return Ok((Func::text(text), rest));
    }
    if begins_with(b'c', bytes) {
        let (path, rest) = counted(alloc, b"count(", bytes)?;
        return Ok((Func::count(path), rest));
    }
    if begins_with(b's', bytes) {
        let ((list, each), rest) = summed(alloc, b"sum(", bytes)?;
        return Ok((Func::sum(list, each), rest));
    }
    let (n, rest) = number_ahead(bytes)?;
    Ok((Func::num(n), rest))
}

// The path between the opening word and a parenthesis, and the bytes after them.
#[tactic(auto, using(crate::proofs::Parts::inside_found, crate::proofs::Parts::inside_stops, crate::proofs::Parts::inside_stops_within, crate::proofs::Parts::inside_stops_last))]
fn counted<'a>(alloc: Global, opening: &[u8], bytes: &'a [u8]) -> Result<(Path, &'a [u8]), Stop>
    ensures { Reads result (after_word opening.now (close read_path (codes ")")) bytes.now) }
{
    let inside = word(opening, bytes)?;
    let (path, rest) = path_ahead(alloc, inside)?;
    let after_word = word(b")", rest)?;
    Ok((path, after_word))
}

// The two paths between the opening word and a parenthesis, and the bytes after them.
#[tactic(auto, using(crate::proofs::Parts::inside_found, crate::proofs::Parts::inside_stops, crate::proofs::Parts::inside_stops_within, crate::proofs::Parts::inside_stops_last))]
fn summed<'a>(
    alloc: Global,
    opening: &[u8],
    bytes: &'a [u8],
) -> Result<((Path, Path), &'a [u8]), Stop>
    ensures { Reads result
        (after_word opening.now (close (sep read_path (codes ",") read_path) (codes ")"))
        bytes.now) }
{
    let inside = word(opening, bytes)?;
    let (paths, rest) = two_paths(alloc, inside)?;
    let after_word = word(b")", rest)?;
    Ok((paths, after_word))
}

fn two_paths(alloc: Global, bytes: &[u8]) -> Result<((Path, Path), &[u8]), Stop>
    ensures { Reads result (sep read_path (codes ",") read_path bytes.now) }
{
    let (first, rest) = path_ahead(alloc, bytes)?;
    let (second, rest) = path_after_comma(alloc, rest)?;
    Ok(((first, second), rest))
}

#[tactic(auto, using(spec_syntax::proofs::Joints::after_on, spec_syntax::proofs::Joints::later_stops))]
fn path_after_comma(alloc: Global, bytes: &[u8]) -> Result<(Path, &[u8]), Stop>
    ensures { Reads result (after_word (codes ",") read_path bytes.now) }
{
    let rest = word(b",", bytes)?;
    path_ahead(alloc, rest)
}
