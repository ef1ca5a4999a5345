//! Which conditions are broken on the marks of a tree.

ghost use Rattle.std.specs.Prelude.{◌≡◌, IfOk};
ghost use Rattle.check_names.specs.Env.{env};
ghost use Rattle.pml_check.specs.Broken.{AreBroken};

use check_conditions::decide::applies;
use check_conditions::find::{Found, find};
use check_names::table::Table;
use promela_model::condition::Condition;
use promela_model::mark::Mark;
use std::alloc::{AllocError, Global};

/// Which conditions are broken on the marks of a tree.
#[derive(Clone, Copy, Debug, PartialEq, Eq)]
pub struct Broken {
    /// Those on names, kinds, counts and ranges.
    pub found: Found,
    /// A break that no `do` is round.
    pub loose_break: bool,
    /// A goto or a break that enters or leaves a d_step, or an unless in one.
    pub crossed_step: bool,
    /// No process begins.
    pub no_process: bool,
    /// Too many processes or channels in the first state.
    pub too_many_at_start: bool,
}

/// Which conditions are broken on these marks, where `all` has the names of all of them.
pub fn broken_on<'a>(
    alloc: Global,
    all: &Table<'a>,
    marks: &[Mark<'a>],
) -> Result<Broken, AllocError>
    requires { all.now ≡ env marks.now }
    ensures { IfOk result (AreBroken marks.now) }
{
    let found = find(alloc, all, marks)?;
    Ok(Broken {
        found,
        loose_break: applies(alloc, Condition::Break, found, all, marks)?,
        crossed_step: applies(alloc, Condition::Step, found, all, marks)?,
        no_process: applies(alloc, Condition::NoProcess, found, all, marks)?,
        too_many_at_start: applies(alloc, Condition::Start, found, all, marks)?,
    })
}
