//! Paths, orders by keys, and the bounds of ranges.

ghost use Rattle.std.specs.Prelude.{◌≡◌, ◌++◌, ◌∷◌, [], codes, IfOk};
ghost use Rattle.spec_syntax.specs.Reader.{after_word, folded, first_is};
ghost use Rattle.spec_syntax.specs.Number.{is_digit};
ghost use Rattle.spec_syntax.specs.ValueReader.{is, snoc};
ghost use Rattle.spec_syntax.specs.LanguageReader.{read_index, read_steps, read_path, read_key, read_order};
ghost use Rattle.gl_syntax.specs.Stop.{Reads};

use gl_lang::{Key, Keys, Order, Path};
use gl_syntax::{Memory, Stop, begins_with, natural_ahead, word};
use std::alloc::Global;

/// The path and the bytes after it. It takes memory for the path.
#[tactic(auto, using(spec_syntax::proofs::Joints::after_on, spec_syntax::proofs::Joints::later_stops))]
pub(crate) fn path_ahead(alloc: Global, bytes: &[u8]) -> Result<(Path, &[u8]), Stop>
    ensures { Reads result (read_path bytes.now) }
{
    let rest = word(b".", bytes)?;
    if begins_with_digit(rest) {
        return steps_ahead(alloc, rest);
    }
    Ok((Path::new(alloc), rest))
}

fn begins_with_digit(bytes: &[u8]) -> bool
    ensures { result ≡ first_is is_digit bytes.now }
{
    matches!(bytes, [b'0'..=b'9', ..])
}

// The indices of a path, after its first dot, and the bytes after them.
#[tactic(auto, using(crate::proofs::Parts::first_stops))]
fn steps_ahead(alloc: Global, bytes: &[u8]) -> Result<(Path, &[u8]), Stop>
    ensures { Reads result (read_steps bytes.now) }
{
    let (first, rest) = index_ahead(bytes)?;
    let path = with_index(Path::new(alloc), first)?;
    other_steps(path, 15, rest)
}

// The path with the indices after it, at most so many of them.
#[tactic(auto, using(spec_syntax::proofs::Folds::folded_on, spec_syntax::proofs::Folds::folded_stops, spec_syntax::proofs::Folds::folded_ends, spec_syntax::proofs::Folds::folded_none))]
fn other_steps(path: Path, most: usize, bytes: &[u8]) -> Result<(Path, &[u8]), Stop>
    ensures { Reads result
        (folded snoc path most (is 46) (after_word (codes ".") read_index) bytes.now) }
{
    let mut path = path;
    let mut rest = bytes;
    let mut more = most;
    'steps: while more > 0 && begins_with(b'.', rest) {
        let (index, others) = index_after_dot(rest)?;
        path = with_index(path, index)?;
        rest = others;
        more -= 1;
    }
    Ok((path, rest))
}

#[tactic(auto, using(spec_syntax::proofs::Joints::after_on, spec_syntax::proofs::Joints::later_stops))]
fn index_after_dot(bytes: &[u8]) -> Result<(u16, &[u8]), Stop>
    ensures { Reads result (after_word (codes ".") read_index bytes.now) }
{
    let rest = word(b".", bytes)?;
    index_ahead(rest)
}

fn index_ahead(bytes: &[u8]) -> Result<(u16, &[u8]), Stop>
    ensures { Reads result (read_index bytes.now) }
{
    let (index, rest) = natural_ahead(65535, bytes)?;
    Ok((index as u16, rest))
}

fn with_index(mut path: Path, index: u16) -> Result<Path, Memory>
    ensures { IfOk result (λ more. more ≡ path ++ index ∷ []) }
{
    match path.push(index) {
        Ok(()) => Ok(path),
        Err((_, failed)) => Err(failed),
    }
}

/// The order and the bytes after it. It takes memory for the order.
pub(crate) fn order_ahead(alloc: Global, bytes: &[u8]) -> Result<(Order, &[u8]), Stop>
    ensures { Reads result (read_order bytes.now) }
{
    let (keys, rest) = keys_ahead(alloc, bytes)?;
    Ok((Order { keys }, rest))
}

#[tactic(auto, using(crate::proofs::Parts::first_stops))]
fn keys_ahead(alloc: Global, bytes: &[u8]) -> Result<(Keys, &[u8]), Stop>
    ensures { Reads result (read_order bytes.now) }
{
    let (first, rest) = key_ahead(alloc, bytes)?;
    let keys = with_key(Keys::new(alloc), first)?;
    other_keys(alloc, keys, 7, rest)
}

// The keys with those after them, at most so many.
#[tactic(auto, using(spec_syntax::proofs::Folds::folded_on, spec_syntax::proofs::Folds::folded_stops, spec_syntax::proofs::Folds::folded_ends, spec_syntax::proofs::Folds::folded_none))]
fn other_keys(alloc: Global, keys: Keys, most: usize, bytes: &[u8]) -> Result<(Keys, &[u8]), Stop>
    ensures { Reads result
        (folded snoc keys most (is 44) (after_word (codes ", ") read_key) bytes.now) }
{
    let mut keys = keys;
    let mut rest = bytes;
    let mut more = most;
    'keys: while more > 0 && begins_with(b',', rest) {
        let (key, others) = key_after_comma(alloc, rest)?;
        keys = with_key(keys, key)?;
        rest = others;
        more -= 1;
    }
    Ok((keys, rest))
}

#[tactic(auto, using(spec_syntax::proofs::Joints::after_on, spec_syntax::proofs::Joints::later_stops))]
fn key_after_comma(alloc: Global, bytes: &[u8]) -> Result<(Key, &[u8]), Stop>
    ensures { Reads result (after_word (codes ", ") read_key bytes.now) }
{
    let rest = word(b", ", bytes)?;
    key_ahead(alloc, rest)
}

fn key_ahead(alloc: Global, bytes: &[u8]) -> Result<(Key, &[u8]), Stop>
    ensures { Reads result (read_key bytes.now) }
{
    if begins_with(b'd', bytes) {
        let (path, rest) = path_downward(alloc, bytes)?;
        return Ok((Key { path, down: true }, rest));
    }
    let (path, rest) = path_ahead(alloc, bytes)?;
    Ok((Key { path, down: false }, rest))
}

#[tactic(auto, using(spec_syntax::proofs::Joints::after_on, spec_syntax::proofs::Joints::later_stops))]
fn path_downward(alloc: Global, bytes: &[u8]) -> Result<(Path, &[u8]), Stop>
    ensures { Reads result (after_word (codes "desc ") read_path bytes.now) }
{
    let rest = word(b"desc ", bytes)?;
    path_ahead(alloc, rest)
}

fn with_key(mut keys: Keys, key: Key) -> Result<Keys, Memory>
    ensures { IfOk result (λ more. more ≡ keys ++ key ∷ []) }
{
    match keys.push(key) {
        Ok(()) => Ok(keys),
        Err((_, failed)) => Err(failed),
    }
}
