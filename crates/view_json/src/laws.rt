//! Laws of lines.

ghost use Rattle.view_json.specs.Asked.{LinesHaveTheChoices};
ghost use Rattle.view_json.specs.Run.{FrontsEnd, LinesAreTheRun, LinesBehindAStep, LongerWalksBeginSo};

/// The lines of a run are that of its first state, one a step, and the last; each step is told against the state before it.
pub fn lines_are_the_run()
    ensures { LinesAreTheRun }
{}

/// The lines of a longer walk begin with those of a shorter one that it goes on from, but for the last of that.
pub fn longer_walks_begin_so()
    ensures { LongerWalksBeginSo }
{}

/// Lines that begin with the state behind a step go on as those of the whole run do behind that step.
pub fn lines_behind_a_step()
    ensures { LinesBehindAStep }
{}

/// The moves of a line are those of a question's list, each once and in its order, as many as its prompt says; so are their objects.
pub fn lines_have_the_choices()
    ensures { LinesHaveTheChoices }
{}

/// What is told of a step before it is taken ends a value, so more can be told behind it.
pub fn fronts_end_a_value()
    ensures { FrontsEnd }
{}
