//! How a list opens.

ghost use Rattle.std.specs.Prelude.{◌≡◌, ◌≤◌, ◌++◌, ◌∷◌, [], ℕ, List, length, IfOk, IfErr, OnOk};
ghost use Rattle.spec_states.specs.Tree.{Tree};
ghost use Rattle.std.specs.List.{All};
ghost use Rattle.spec_states.specs.State.{source as sourcing, composite as composing, opening_of};
ghost use Rattle.spec_states.specs.Composite.{composite_view};
ghost use Rattle.gl_composite.specs.Stands as composite_stands;
ghost use Rattle.spec_states.specs.Shown.{shown_of};
ghost use Rattle.gl_graph.specs.Nodes.{own_of, shown_by, StandsFor, AreSettled, IsPlaced};
ghost use Rattle.gl_graph.specs.Graph.{IsLimited};
ghost use Rattle.gl_graph.specs.Opening.{OnInputs, IsOver, IsFaultBy};

use crate::derived::Derived;
use crate::held::Held;
use crate::keeps::Keeps;
use crate::node::Node;
use crate::seen::{len_of, see, shown_len};
use gl_composite::Composite;
use gl_held::{Freezable, Proxy, Transaction};
use gl_kernels::{
    Collection, Filter, Function, Grouping, KernelFault, RangeKernel, Sorted, Unique,
};
use gl_plan::{Items, ListKind, Steps, Values};
use gl_source::{OpenFault, SourceList};
use std::alloc::{AllocError, Global};
use std::sync::ledger::Ledger;

/// What a list keeps that opens after the nodes at the front. It takes memory for that.
pub(crate) fn opened<L: Ledger>(
    alloc: Global,
    kind: &ListKind,
    prefix: &[Node],
    positions: &[u32],
    limit: u64,
    steps: &mut Steps<L>,
) -> Result<Keeps, OpenFault>
    requires settled { AreSettled prefix.now positions.now }
    requires inputs { OnInputs (IsPlaced prefix.now positions.now) kind.now }
    requires few { limit ≤ 2147483647 }
    ensures own { IfOk result (λ keeps.
        own_of keeps ≡ opening_of (shown_by prefix.now positions.now) kind.now) }
    ensures stands { IfOk result (λ keeps. StandsFor keeps (shown_by prefix.now positions.now)) }
    ensures limited { IfOk result (IsLimited limit) }
    ensures within { OnOk result
        (length (shown_of (opening_of (shown_by prefix.now positions.now) kind.now)
        (shown_by prefix.now positions.now)) ≤ limit) }
    ensures over { IfErr result
        (IsOver limit
        (length (shown_of (opening_of (shown_by prefix.now positions.now) kind.now)
        (shown_by prefix.now positions.now)))) }
{
    let keeps = made(alloc, kind, prefix, positions, limit, steps)?;
    let len = len_of(prefix, positions, &keeps);
    if len as u64 > limit {
        return Err(OpenFault::TooLong { len: len as u128 });
    }
    Ok(keeps)
}

// The same, however long the list is; of a source that is too long there is nothing.
fn made<L: Ledger>(
    alloc: Global,
    kind: &ListKind,
    prefix: &[Node],
    positions: &[u32],
    limit: u64,
    steps: &mut Steps<L>,
) -> Result<Keeps, OpenFault>
    requires settled { AreSettled prefix.now positions.now }
    requires inputs { OnInputs (IsPlaced prefix.now positions.now) kind.now }
    requires few { limit ≤ 2147483647 }
    ensures own { IfOk result (λ keeps.
        own_of keeps ≡ opening_of (shown_by prefix.now positions.now) kind.now) }
    ensures stands { IfOk result (λ keeps. StandsFor keeps (shown_by prefix.now positions.now)) }
    ensures limited { IfOk result (IsLimited limit) }
    ensures over { IfErr result
        (IsOver limit
        (length (shown_of (opening_of (shown_by prefix.now positions.now) kind.now)
        (shown_by prefix.now positions.now)))) }
{
    match kind {
        ListKind::Source { rows } => source_of(alloc, rows, limit),
        ListKind::Filter { input, matcher } => {
            let shelf = see(prefix, positions, *input);
            let filter = Filter::make(alloc, matcher.copy(alloc)?, &shelf, steps)?;
            Ok(over(*input, Derived::Filter(filter)))
        }
        ListKind::Sorted { input, order } => {
            let shelf = see(prefix, positions, *input);
            let sorted = Sorted::make(alloc, order.copy(alloc)?, &shelf, steps)?;
            Ok(over(*input, Derived::Sorted(sorted)))
        }
        ListKind::Unique { input, order } => {
            let shelf = see(prefix, positions, *input);
            let unique = Unique::make(alloc, order.copy(alloc)?, &shelf, steps)?;
            Ok(over(*input, Derived::Unique(unique)))
        }
        ListKind::Grouping { input, order } => {
            let shelf = see(prefix, positions, *input);
            let grouping = Grouping::make(alloc, order.copy(alloc)?, &shelf, steps)?;
            Ok(over(*input, Derived::Grouping(grouping)))
        }
        ListKind::Range { input, bounds } => {
            let shelf = see(prefix, positions, *input);
            let range = RangeKernel::make(alloc, *bounds, &shelf, steps)?;
            Ok(over(*input, Derived::Range(range)))
        }
        ListKind::Function { input, func } => {
            let shelf = see(prefix, positions, *input);
            let function = Function::make(alloc, func.copy(alloc)?, &shelf, steps)?;
            Ok(over(*input, Derived::Function(function)))
        }
        ListKind::Collection { input, kids } => {
            let shelf = see(prefix, positions, *input);
            match Collection::make(alloc, kids.copy(alloc)?, limit, &shelf, steps) {
                Ok(collection) => Ok(over(*input, Derived::Collection(collection))),
                Err(fault) => Err(fault_by(fault)),
            }
        }
        ListKind::Composite { members, may } => {
            composite_of(
                alloc,
                members.as_slice(),
                may.as_slice(),
                prefix,
                positions,
                limit,
            )
        }
        ListKind::Transaction { input } => {
            let transaction = Transaction::make(alloc);
            Ok(held(*input, Held::Transaction(transaction)))
        }
        ListKind::Freezable { input } => {
            let freezable = Freezable::make(alloc);
            Ok(held(*input, Held::Freezable(freezable)))
        }
        ListKind::Proxy { input } => {
            let shelf = see(prefix, positions, *input);
            let proxy = Proxy::make(alloc, &shelf)?;
            Ok(Keeps::Proxy {
                input: *input,
                proxy,
            })
        }
    }
}

// Why a list over another doesn't open.
fn fault_by(fault: KernelFault) -> OpenFault
    ensures { IsFaultBy fault result }
{
    match fault {
        KernelFault::TooLong { len } => OpenFault::TooLong { len },
        KernelFault::Memory => OpenFault::Memory,
    }
}

fn over(input: u32, derived: Derived) -> Keeps
    ensures { result ≡ Keeps.Over input derived }
{
    Keeps::Over { input, derived }
}

fn held(input: u32, held: Held) -> Keeps
    ensures { result ≡ Keeps.Held input held }
{
    Keeps::Held { input, held }
}

// What a source keeps.
fn source_of(alloc: Global, rows: &Values, limit: u64) -> Result<Keeps, OpenFault>
    requires { limit ≤ 2147483647 }
    ensures own { IfOk result (λ keeps. own_of keeps ≡ sourcing rows.now) }
    ensures stands { (shows : ℕ → List Tree) → IfOk result (λ keeps. StandsFor keeps shows) }
    ensures limited { IfOk result (IsLimited limit) }
    ensures over { IfErr result (IsOver limit (length rows.now)) }
{
    match SourceList::make(alloc, rows, limit) {
        Ok(source) => Ok(Keeps::Source(source)),
        Err(fault) => Err(fault),
    }
}

// What a composite keeps that opens with these members, and may have others.
fn composite_of(
    alloc: Global,
    members: &[u32],
    may: &[u32],
    prefix: &[Node],
    positions: &[u32],
    limit: u64,
) -> Result<Keeps, OpenFault>
    requires settled { AreSettled prefix.now positions.now }
    requires placed { All (IsPlaced prefix.now positions.now) (members.now ++ may.now) }
    requires few { limit ≤ 2147483647 }
    ensures own { IfOk result
        (λ keeps. own_of keeps ≡ composing (members.now ++ may.now) members.now) }
    ensures stands { IfOk result (λ keeps. StandsFor keeps (shown_by prefix.now positions.now)) }
    ensures limited { IfOk result (IsLimited limit) }
    ensures over { IfErr result (IsOver limit
        (length (composite_view members.now (shown_by prefix.now positions.now)))) }
{
    let len = total_len(members, prefix, positions);
    if len > limit as u128 {
        return Err(OpenFault::TooLong { len });
    }
    let needed = joined_numbers(alloc, members, may)?;
    let composite = with_members(alloc, members, prefix, positions, limit)?;
    Ok(Keeps::Composite { needed, composite })
}

// How many elements these lists show together.
fn total_len(members: &[u32], prefix: &[Node], positions: &[u32]) -> u128
    requires settled { AreSettled prefix.now positions.now }
    requires placed { All (IsPlaced prefix.now positions.now) members.now }
    ensures { result ≡ length (composite_view members.now (shown_by prefix.now positions.now)) }
{
    let mut len = 0u128;
    for member in members {
        len += shown_len(prefix, positions, *member) as u128;
    }
    len
}

// Numbers, and others after them.
fn joined_numbers(alloc: Global, first: &[u32], others: &[u32]) -> Result<Items<u32>, AllocError>
    ensures { IfOk result (λ all. all ≡ first.now ++ others.now) }
{
    let mut all = Vec::with_capacity(alloc, first.len())?;
    all.extend_from_slice(first)?;
    all.extend_from_slice(others)?;
    Ok(Items::from_vec(all))
}

// A composite of these members, which show no more elements together than it may.
fn with_members(
    alloc: Global,
    members: &[u32],
    prefix: &[Node],
    positions: &[u32],
    limit: u64,
) -> Result<Composite, AllocError>
    requires settled { AreSettled prefix.now positions.now }
    requires placed { All (IsPlaced prefix.now positions.now) members.now }
    requires few { limit ≤ 2147483647 }
    requires within { length (composite_view members.now (shown_by prefix.now positions.now))
        ≤ limit }
    ensures lists { IfOk result (λ composite. composite.lists ≡ members.now) }
    ensures stands { IfOk result
        (λ composite. composite_stands.StandsFor composite (shown_by prefix.now positions.now)) }
    ensures limit { IfOk result (λ composite. composite.limit ≡ limit) }
{
    let mut composite = Composite::make(alloc, limit);
    for member in members {
        with_member(&mut composite, *member, prefix, positions)?;
    }
    Ok(composite)
}

// One member more.
fn with_member(
    composite: &mut Composite,
    member: u32,
    prefix: &[Node],
    positions: &[u32],
) -> Result<(), AllocError>
    requires settled { AreSettled prefix.now positions.now }
    requires placed { IsPlaced prefix.now positions.now member }
    requires stands { composite_stands.StandsFor composite.old
        (shown_by prefix.now positions.now) }
    ensures lists { OnOk result (composite.new.lists ≡ composite.old.lists ++ member ∷ []) }
    ensures stands { OnOk result
        (composite_stands.StandsFor composite.new (shown_by prefix.now positions.now)) }
    ensures limit { composite.new.limit ≡ composite.old.limit }
{
    let shelf = see(prefix, positions, member);
    match composite.attach(member, &shelf) {
        Ok(done) => {
            drop(done);
            Ok(())
        }
        Err(_) => Err(AllocError),
    }
}
