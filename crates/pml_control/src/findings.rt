//! The plan of a body: its positions by numbers, and what is found of its control.

ghost use Rattle.std.specs.Prelude.{◌≡◌, IfOk};
ghost use Rattle.pml_control.specs.Decides.{DecidesCircle, DecidesFirstPoint};
ghost use Rattle.pml_control.specs.Plan.{IsPlan};

use crate::circle::any_circles;
use crate::ends::{Ending, ends};
use crate::first_point::any_bad;
use crate::graph::posts;
use crate::labels::nexts;
use pml_program::program::Seq;
use std::alloc::{AllocError, Global};
use std::marker::Model;

/// What is found of the control of a body.
#[derive(Clone, Copy, Debug, PartialEq, Eq)]
pub struct Findings {
    /// Settling never ends at some position: at the start, behind a statement, or at a label.
    pub circle: bool,
    /// Some d_step, nested ones too, has a first point that begins with an `else`, or that lies outside it.
    pub bad_first_point: bool,
}

/// The positions of a body by numbers: of each the one that settling goes on to, and where settling ends. It borrows nothing of the body.
#[derive(Drop)]
pub struct Plan {
    next: Vec<Option<usize>>,
    ends: Vec<Ending>,
    findings: Findings,
}

impl Model for Plan {
    ghost use Rattle.pml_control.specs.Plan.{Plan};

    ghost Value = { Plan };

    ghost view = { λ p. record { next = p.next.items; ends = p.ends.items; findings = p.findings } };
}

impl Plan {
    /// The position that settling goes on to from each, if any.
    pub fn next(&self) -> &[Option<usize>]
        ensures { result.now ≡ self.now.next }
    {
        self.next.as_slice()
    }

    /// Where settling ends from each.
    pub fn ends(&self) -> &[Ending]
        ensures { result.now ≡ self.now.ends }
    {
        self.ends.as_slice()
    }

    /// What is found of control.
    pub fn findings(&self) -> Findings
        ensures { result ≡ self.now.findings }
    {
        self.findings
    }
}

/// Numbers the positions of a body, and looks for circles of gotos and for bad first points of d_steps, over one walk of it. Takes time
/// and memory linear in the number of statements. Nothing is said of a first point that a circle of gotos leaves without end.
pub fn examine(alloc: Global, body: &Seq) -> Result<Plan, AllocError>
    ensures plan { IfOk result (λ plan. IsPlan body.now plan) }
    ensures circle { IfOk result (λ plan. DecidesCircle body.now plan.findings.circle) }
    ensures first_point { IfOk result (λ plan. DecidesFirstPoint body.now plan.findings.bad_first_point) }
{
    let posts = posts(alloc, body)?;
    let next = nexts(alloc, posts.as_slice())?;
    let ends = ends(alloc, next.as_slice())?;
    let circle = any_circles(ends.as_slice());
    let bad_first_point = any_bad(posts.as_slice(), ends.as_slice());
    Ok(Plan {
        next,
        ends,
        findings: Findings {
            circle,
            bad_first_point,
        },
    })
}
