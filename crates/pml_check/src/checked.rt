//! The checks.

ghost use Rattle.std.specs.Prelude.{◌≡◌, IfOk, IfErr, OnOk};
ghost use Rattle.promela_refusals.specs.Judged.{IsFit, IsLeast};
ghost use Rattle.pml_check.specs.Checked.{IsRefused};
ghost use Rattle.promela_model.specs.StandsModel.{StandsModel};

use crate::control::all_graphs;
use crate::judge::least_of;
use crate::subject::{Subject, subject_of};
use diagnostics::Refusal;
use pml_flow::graph::Graph;
use pml_program::program::Program;
use pml_tree::tree::Tree;
use sqlite_items::Boxed;
use std::alloc::{AllocError, Global};
use std::marker::Model;

/// Why a tree has no checked model.
#[derive(Clone, Copy, Debug, PartialEq, Eq)]
pub enum CheckFault {
    Refused(Refusal),
    Memory,
}

impl From<AllocError> for CheckFault {
    ghost use Rattle.std.specs.Prelude.{◌≡◌};
    ghost use Rattle.pml_check.specs.declared.checked.CheckFault.TheVariants.{Memory};

    ghost from_gives = { λ _ e. e ≡ Memory };

    fn from(_: AllocError) -> CheckFault {
        CheckFault::Memory
    }
}

/// A model that fits all conditions, with its names replaced by what they stand for, and the control graphs of its proctypes.
#[derive(Drop)]
pub struct Checked<'a> {
    program: Boxed<Program<'a>>,
    graphs: Vec<Graph>,
}

impl<'a> Model for Checked<'a> {
    ghost use Rattle.pml_program.specs.declared.program.Program.{Program};
    ghost use Rattle.pml_check.specs.Checked.{IsChecked};
    ghost use Rattle.pml_program.specs.contracts.expr.Expr as worth;
    ghost use Rattle.pml_program.specs.contracts.program.Seq as seq;
    ghost use Rattle.std.specs.Coded.{codes};
    ghost use mir.Syntax.{named};
    ghost use Rattle.std.specs.Prelude.{[]};

    ghost Value = { Program };

    ghost coded = { Prim.hlevel (codes, worth.the_row.coded, (seq.the_row (record { mir = named 0; lft = [] })).coded) };

    ghost view = { λ c. c.program };

    ghost invariant = { λ c. IsChecked c.program c.graphs.items };
}

impl<'a> Checked<'a> {
    ghost use Rattle.pml_flow.specs.Graph.{AreGraphs};
    ghost use Rattle.run_start.specs.Bound.{IsWithin};
    ghost use Rattle.pml_check.specs.Fitted.{HasGoodStart};

    /// The model: its cells and its channels are within the limits, and no variable of its first state begins with a fault.
    pub fn program(&self) -> &Program<'a>
        ensures model { result.now ≡ self.now }
        ensures within { IsWithin result.now }
        ensures start { HasGoodStart result.now }
    {
        self.program.get()
    }

    /// The control graphs of its proctypes, in their order.
    pub fn graphs(&self) -> &[Graph]
        ensures { AreGraphs self.now.proctypes result.now }
    {
        self.graphs.as_slice()
    }
}

/// Checks a tree, and lets it go. It answers the least refusal that applies, exactly where one does, and else the checked model.
pub fn check<'a>(alloc: Global, tree: Tree<'a>) -> Result<Checked<'a>, CheckFault>
    ensures fits { OnOk result (IsFit tree.entry) }
    ensures model { IfOk result (λ checked. StandsModel tree.entry checked) }
    ensures refused { IfErr result (IsRefused tree.entry) }
{
    let subject = subject_of(alloc, tree)?;
    if let Some(refusal) = least_of(alloc, &subject)? {
        return Err(CheckFault::Refused(refusal));
    }
    let Subject { program, plans, .. } = subject;
    let graphs = all_graphs(alloc, program.get().proctypes.as_slice(), plans.as_slice())?;
    Ok(Checked { program, graphs })
}
