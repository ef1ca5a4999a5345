//! What is asked of the first state.

ghost use Rattle.std.specs.Prelude.{IfOk};
ghost use Rattle.run_start.specs.Bound.{IsWithin};
ghost use Rattle.pml_check.specs.Decided.{DecidesStart};

use diagnostics::Stop;
use pml_program::program::Program;
use run_start::start::start;
use std::alloc::{AllocError, Global};

/// Whether what a variable of the first state begins with cannot be evaluated.
pub fn has_bad_start(alloc: Global, program: &Program) -> Result<bool, AllocError>
    requires within { IsWithin program.now }
    ensures { IfOk result (λ b. DecidesStart b program.now) }
{
    match start(alloc, program) {
        Ok(_) => Ok(false),
        Err(Stop::Fault(_)) => Ok(true),
        Err(Stop::Memory) => Err(AllocError),
    }
}
