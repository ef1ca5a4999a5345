//! Laws of sessions.

ghost use Rattle.session.specs.Converting.{ConvertedChoicesStandForTheRecord, RecordInSecondConverts};
ghost use Rattle.session.specs.Laws.{ShowingChangesNothing, WhatIsBehindChangesNothing};

use crate::Machine;

/// Whatever is shown of a run, it reads and records the same, takes the same steps and ends alike.
pub fn showing_changes_nothing<M: Machine>()
    ensures { ShowingChangesNothing M.rules }
{}

/// A run that does not meet the end of its choices is the same, whatever lies behind them.
pub fn what_is_behind_changes_nothing<M: Machine>()
    ensures { WhatIsBehindChangesNothing M.rules }
{}

/// A run on its converted choices is the run on its record, and reads all of them, or nothing where no question is asked.
pub fn converted_choices_stand_for_the_record<M: Machine>()
    ensures { ConvertedChoicesStandForTheRecord M.rules }
{}

/// A session with a record in lines of the second version is the one whose choices are converted: what is recorded of it is put out.
pub fn a_record_in_the_second_version_converts<M: Machine>()
    ensures { RecordInSecondConverts M.rules }
{}
