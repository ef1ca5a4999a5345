//! Laws between the definitions of a run that stand in several crates. Nothing here is run.
#![tactic(auto)]

ghost use Rattle.run_laws.specs.Stuck.{LinesTellWhoIsStuck, EndsWellWhereNobodyIsStuck};

/// Where a run does not end well, the lines `at: ..` are those of just the processes that may not end where they stand, in their order,
/// each with its name and its line.
pub fn lines_tell_who_is_stuck()
    ensures { LinesTellWhoIsStuck }
{}

/// A run ends well exactly where no process is one that may not end where it stands.
pub fn runs_end_well_where_nobody_is_stuck()
    ensures { EndsWellWhereNobodyIsStuck }
{}
