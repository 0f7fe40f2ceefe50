//! A list over one input, among the lists of a graph.

ghost use Rattle.std.specs.Prelude.{◌≡◌, IfOk, IfErr, OnOk, OnErr};
ghost use Rattle.spec_states.specs.Leads.{LeadsTo, undone};
ghost use Rattle.spec_states.specs.View.{follow_of};
ghost use Rattle.spec_states.specs.Wave.{parameter_of, parameter_change, view_after};
ghost use Rattle.gl_graph.specs.Derived.{view_of_derived};
ghost use Rattle.gl_graph.specs.Derived as derived_keeps;
ghost use Rattle.gl_graph.specs.Nodes.{IsPlaced, AreSettled, shown_by};
ghost use Rattle.gl_graph.specs.Commands.{Gives};
ghost use Rattle.gl_graph.specs.Room.{IsNoMore};

use crate::derived::{Derived, DerivedUndo};
use crate::node::Node;
use crate::seen::see;
use gl_kernels::{Delta, KernelFault};
use gl_plan::{Command, Steps};
use std::alloc::{AllocError, Global};
use std::sync::ledger::Ledger;

/// A list takes another parameter, by what its input shows.
pub(crate) fn change<L: Ledger>(
    derived: &mut Derived,
    alloc: Global,
    command: &Command,
    prefix: &[Node],
    positions: &[u32],
    input: u32,
    steps: &mut Steps<L>,
) -> Result<(Delta, DerivedUndo), AllocError>
    requires settled { AreSettled prefix.now positions.now }
    requires placed { IsPlaced prefix.now positions.now input }
    requires gives { Gives (view_of_derived derived.old) (parameter_of command.now) }
    requires stands { derived_keeps.StandsFor derived.old
        (shown_by prefix.now positions.now input) }
    ensures delta { IfOk result (λ told. told.0.pieces
        ≡ parameter_change (parameter_of command.now) (view_of_derived derived.old) (shown_by prefix.now positions.now input)) }
    ensures stands { OnOk result
        (derived_keeps.StandsFor derived.new (shown_by prefix.now positions.now input)) }
    ensures view { OnOk result
        (view_of_derived derived.new ≡ view_after (parameter_of command.now) (view_of_derived derived.old)) }
    ensures undo { IfOk result (λ told. derived_keeps.IsUndo told.1 derived.old derived.new) }
    ensures err { OnErr result
        (derived_keeps.contents derived.new ≡ derived_keeps.contents derived.old) }
    ensures room { OnErr result
        (IsNoMore (derived_keeps.room_of derived.old) (derived_keeps.room_of derived.new)) }
    ensures limit { OnOk result
        (derived_keeps.limit_of derived.new ≡ derived_keeps.limit_of derived.old) }
{
    let shelf = see(prefix, positions, input);
    derived.change(alloc, command, &shelf, steps)
}

/// A list follows a change of its input.
pub(crate) fn advance<L: Ledger>(
    derived: &mut Derived,
    prefix: &[Node],
    positions: &[u32],
    input: u32,
    d: &Delta,
    steps: &mut Steps<L>,
) -> Result<(Delta, DerivedUndo), KernelFault>
    requires settled { AreSettled prefix.now positions.now }
    requires placed { IsPlaced prefix.now positions.now input }
    requires leads { LeadsTo d.now.pieces (shown_by prefix.now positions.now input) }
    requires stood { derived_keeps.StandsFor derived.old
        (undone d.now.pieces (shown_by prefix.now positions.now input)) }
    ensures delta { IfOk result (λ told. told.0.pieces
        ≡ follow_of (view_of_derived derived.old) (undone d.now.pieces (shown_by prefix.now positions.now input)) d.now.pieces) }
    ensures stands { OnOk result
        (derived_keeps.StandsFor derived.new (shown_by prefix.now positions.now input)) }
    ensures view { OnOk result (view_of_derived derived.new ≡ view_of_derived derived.old) }
    ensures undo { IfOk result (λ told. derived_keeps.IsUndo told.1 derived.old derived.new) }
    ensures err { OnErr result
        (derived_keeps.contents derived.new ≡ derived_keeps.contents derived.old) }
    ensures room { OnErr result
        (IsNoMore (derived_keeps.room_of derived.old) (derived_keeps.room_of derived.new)) }
    ensures limit { OnOk result
        (derived_keeps.limit_of derived.new ≡ derived_keeps.limit_of derived.old) }
    ensures over { IfErr result
        (derived_keeps.IsOver derived.old (shown_by prefix.now positions.now input)) }
{
    let shelf = see(prefix, positions, input);
    derived.advance(&shelf, d, steps)
}
