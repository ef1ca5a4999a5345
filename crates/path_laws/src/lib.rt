//! Laws of paths and of what is recorded along them. Nothing here is run.
#![tactic(auto)]

ghost use Rattle.promela_run.specs.Moves.{moves};
ghost use Rattle.promela_run.specs.State.{State};
ghost use Rattle.pml_play.specs.Run.{OfEachSession};
ghost use Rattle.promela_run.specs.World.{rules};
ghost use Rattle.path_laws.specs.GoesOn.{PathsGoOnByMoves};
ghost use Rattle.path_laws.specs.OneRecord.{PathsAndRecordsAreOneToOne, PathsHaveOneRecord, StandOnce, ListsOnce};
ghost use Rattle.path_laws.specs.Origins.{ListedMovesHaveOrigins, TextsNamePlaces};
ghost use Rattle.path_laws.specs.OneRun.{EachHasOneRun, RunsAndRecordsAreOneToOne, SessionsAreTold};

use session::Machine;

/// The moves of a state are listed once each: no move stands at two places of the list. So it is with each state of a machine of models.
pub fn no_move_is_listed_twice()
    ensures states { (s : State) → StandOnce (moves s) }
    ensures models { ListsOnce rules }
{}

/// Where a machine lists each move once, a path has one list of numbers, and of paths with as many steps each has its own. So what is run and what is
/// recorded of it are one to one: two runs take the same path, and fail at the same move if they fail, exactly where record, number of steps, and
/// whether they fail are the same.
pub fn a_path_has_one_record<M: Machine>()
    ensures numbers { ListsOnce M.rules → PathsHaveOneRecord M.rules }
    ensures paths { ListsOnce M.rules → PathsAndRecordsAreOneToOne M.rules }
    ensures runs { ListsOnce M.rules → RunsAndRecordsAreOneToOne M.rules }
{}

/// A model's runs and its records are one to one. A session over a text that stands for a model has one run, whatever the choices are; two sessions over
/// it, by whatever limits and choices, have the same run exactly where record, number of steps, and whether they fail are the same.
pub fn runs_and_records_are_one_to_one()
    ensures paths { PathsAndRecordsAreOneToOne rules }
    ensures one { OfEachSession (λ o. EachHasOneRun rules o.limit) }
    ensures same { SessionsAreTold }
{}

/// The text of a move whose statement is there names its process and its line, and behind the line's digits stands ` [`. In each state that a path of a
/// text's model leads to, each move that is listed is of a statement that is there, so its text names where it comes from, of a pair for both processes.
pub fn listed_moves_have_origins()
    ensures names { TextsNamePlaces }
    ensures listed { ListedMovesHaveOrigins }
{}

/// The moves that are listed in a state are those by which paths go on from it: what is searched for and what is run are the same.
pub fn paths_go_on_by_listed_moves<M: Machine>()
    ensures { PathsGoOnByMoves M.rules }
{}
