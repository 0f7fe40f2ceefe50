//! The words of a call.

ghost use Rattle.std.specs.Prelude.{◌≡◌, [], ◌∷◌, IfOk, IfSome, IfNone, option_map};
ghost use Rattle.spec_reports.specs.Words.{Asks, HaveNoForm, replay, big};
ghost use Rattle.gl_app.specs.Words.{actor_in, pieces, actors_in, order_in, size_in, asked, entries_of, request_of};

use gl_outside::Actor;
use gl_syntax::{Text, cut, decimal_index};
use std::alloc::{AllocError, Global};

/// The greatest size of a large plan.
const MOST_SIZE: u32 = 10_000;

/// What the words of a call ask for.
#[derive(Drop)]
pub enum Request {
    /// Something of the plan that the source holds.
    OfPlan(PlanRequest),
    /// The summary of the large plan of this size.
    Big(u32),
}

/// What they ask for of a plan.
#[derive(Drop)]
pub enum PlanRequest {
    /// Its one text.
    Check,
    /// Its report in this order.
    Replay(Vec<Actor>),
}

#[tactic(auto, using(crate::proofs::SpelledWords::asks_what_is_asked, crate::proofs::SpelledWords::no_form_without))]
/// The request that the words ask for, where they have its form.
pub fn read_words(alloc: Global, words: &[Text]) -> Result<Option<Request>, AllocError>
    ensures found { IfOk result (λ o. IfSome o (λ request. Asks words.now (request_of request))) }
    ensures none { IfOk result (λ o. IfNone o (HaveNoForm words.now)) }
{
    asked_request(alloc, words)
}

fn asked_request(alloc: Global, words: &[Text]) -> Result<Option<Request>, AllocError>
    ensures { IfOk result (λ o. option_map request_of o ≡ asked words.now) }
{
    match words {
        [keyword] => Ok(alone(keyword.bytes())),
        [keyword, word] => after_keyword(alloc, keyword.bytes(), word.bytes()),
        _ => Ok(None),
    }
}

// What a word asks for alone.
fn alone(keyword: &[u8]) -> Option<Request>
    ensures { option_map request_of result ≡ asked (keyword.now ∷ []) }
{
    if keyword == b"check".as_slice() {
        Some(Request::OfPlan(PlanRequest::Check))
    } else {
        None
    }
}

// What the second word gives to the first: an order, or a size.
fn after_keyword(alloc: Global, keyword: &[u8], word: &[u8]) -> Result<Option<Request>, AllocError>
    ensures { IfOk result (λ o. option_map request_of o ≡ asked (keyword.now ∷ word.now ∷ [])) }
{
    if keyword == b"replay".as_slice() {
        read_replay(alloc, word)
    } else if keyword == b"big".as_slice() {
        Ok(read_big(word))
    } else {
        Ok(None)
    }
}

fn read_big(bytes: &[u8]) -> Option<Request>
    ensures { option_map request_of result ≡ option_map big (size_in bytes.now) }
{
    match read_size(bytes) {
        Some(size) => Some(Request::Big(size)),
        None => None,
    }
}

/// The size that the bytes spell, from 1 to 10,000.
pub fn read_size(bytes: &[u8]) -> Option<u32>
    ensures { result ≡ size_in bytes.now }
{
    let size = decimal_index(bytes)?;
    if 1 <= size && size <= MOST_SIZE {
        Some(size)
    } else {
        None
    }
}

fn read_replay(alloc: Global, bytes: &[u8]) -> Result<Option<Request>, AllocError>
    ensures { IfOk result (λ o. option_map request_of o ≡ option_map replay (order_in bytes.now)) }
{
    match read_order(alloc, bytes)? {
        Some(order) => Ok(Some(Request::OfPlan(PlanRequest::Replay(order)))),
        None => Ok(None),
    }
}

fn read_order(alloc: Global, bytes: &[u8]) -> Result<Option<Vec<Actor>>, AllocError>
    ensures { IfOk result (λ o. option_map entries_of o ≡ order_in bytes.now) }
{
    if bytes == b"-".as_slice() {
        Ok(Some(Vec::new(alloc)))
    } else {
        read_actors(alloc, bytes)
    }
}

// The actors between commas, of which there is one at least.
fn read_actors(alloc: Global, bytes: &[u8]) -> Result<Option<Vec<Actor>>, AllocError>
    ensures { IfOk result (λ o. option_map entries_of o ≡ actors_in (pieces bytes.now)) }
{
    let mut order = Vec::new(alloc);
    let mut rest = bytes;
    while let Some((piece, others)) = cut(rest, b',') {
        let Some(actor) = read_actor(piece) else {
            return Ok(None);
        };
        order.push(actor)?;
        rest = others;
    }
    let Some(actor) = read_actor(rest) else {
        return Ok(None);
    };
    order.push(actor)?;
    Ok(Some(order))
}

/// The actor that the bytes spell.
#[tactic(auto, unfolding(crate::specs::Words::actor_in))]
pub fn read_actor(bytes: &[u8]) -> Option<Actor>
    ensures { result ≡ actor_in bytes.now }
{
    match bytes {
        [b'w', number @ ..] => Some(Actor::Writer(decimal_index(number)?)),
        [b'p', number @ ..] => Some(Actor::Proxy(decimal_index(number)?)),
        _ => None,
    }
}
