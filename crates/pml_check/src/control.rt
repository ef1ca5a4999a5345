//! Control, in the bodies of all proctypes: their plans, what is found in them, and their graphs.

ghost use Rattle.std.specs.Prelude.{◌≡◌, ◌||◌, IfOk};
ghost use Rattle.pml_control.specs.Plan.{ArePlans};
ghost use Rattle.pml_flow.specs.Graph.{AreGraphs};
ghost use Rattle.pml_check.specs.Fitted.{EachBody};
ghost use Rattle.promela_process.specs.Control.{SettlesEverywhere};
ghost use Rattle.pml_check.specs.Decided.{DecidesCircles, DecidesSteps};

use pml_control::findings::{Findings, Plan, examine};
use pml_flow::graph::Graph;
use pml_program::program::Proctype;
use std::alloc::{AllocError, Global};

/// The plans of all bodies, and what is found in any.
#[derive(Drop)]
pub struct Control {
    pub plans: Vec<Plan>,
    pub found: Findings,
}

/// What is found in one or the other.
fn either(a: Findings, b: Findings) -> Findings
    ensures circle { result.circle ≡ (a.circle || b.circle) }
    ensures first_point { result.bad_first_point ≡ (a.bad_first_point || b.bad_first_point) }
{
    Findings {
        circle: a.circle || b.circle,
        bad_first_point: a.bad_first_point || b.bad_first_point,
    }
}

/// The plans of all bodies, and what is found in any of them.
pub fn examine_all(alloc: Global, proctypes: &[Proctype]) -> Result<Control, AllocError>
    ensures circles { IfOk result (λ control. DecidesCircles control.found.circle proctypes.now) }
    ensures steps { IfOk result (λ control. DecidesSteps control.found.bad_first_point proctypes.now) }
    ensures plans { IfOk result (λ control. ArePlans proctypes.now control.plans.items) }
{
    let mut plans = Vec::new(alloc);
    let mut found = Findings {
        circle: false,
        bad_first_point: false,
    };
    for proctype in proctypes {
        let plan = examine(alloc, &proctype.body)?;
        found = either(found, plan.findings());
        plans.push(plan)?;
    }
    Ok(Control { plans, found })
}

/// The graphs of all proctypes, by the plans of their bodies.
pub fn all_graphs(
    alloc: Global,
    proctypes: &[Proctype],
    plans: &[Plan],
) -> Result<Vec<Graph>, AllocError>
    requires settle { EachBody SettlesEverywhere proctypes.now }
    requires plans { ArePlans proctypes.now plans.now }
    ensures { IfOk result (λ graphs. AreGraphs proctypes.now graphs.items) }
{
    let mut graphs = Vec::new(alloc);
    for (number, proctype) in proctypes.iter().enumerate() {
        graphs.push(Graph::build(alloc, proctype, &plans[number])?)?;
    }
    Ok(graphs)
}
