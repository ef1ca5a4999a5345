//! Laws of the definitions, which functions without a body state.

ghost use Rattle.std.specs.Prelude.{ℕ, Bool, List};
ghost use Rattle.diagnostics.specs.declared.refusal.Refusal.TheVariants as r;
ghost use Rattle.promela_text.specs.Tokens.{IsTooDeep};
ghost use Rattle.promela_run.specs.World.{Running, rules};
ghost use Rattle.promela_session.specs.declared.ends.Options.{Options};
ghost use Rattle.pml_play.specs.Plain.{IsNeverRefused, IsRefusedWhere, OfEachPlain, SpellNothing, SpellTheSame};
ghost use Rattle.pml_play.specs.Run.{OfEachSession, PlaysEachPath, PlaysJustThePath, RecordGivesRun, RunsThroughPaths};
ghost use Rattle.pml_play.specs.Shown.{ComeWherePathsLead, ShowsEachPath};
ghost use Rattle.pml_play.specs.Transcript.{IsModel};
ghost use Rattle.pml_play.specs.Outcomes.{HasLines, HasOneModel, HasOneRefusal, HasOneTranscript, HasTranscript, IsRefusedOrStands};

/// A text is refused in one way at most, or stands for one model at most, and not both.
pub fn one_outcome()
    ensures refusal { (text : List ℕ) → HasOneRefusal text }
    ensures either { (text : List ℕ) → IsRefusedOrStands text }
    ensures model { (text : List ℕ) → HasOneModel text }
{}

/// Each text has a transcript, and the transcripts of a text have the same events: only the line of a refusal is left open.
pub fn each_text_has_a_transcript()
    ensures some { (text : List ℕ) (options : Options) → HasTranscript text options }
    ensures one { (text : List ℕ) (options : Options) → HasOneTranscript text options }
{}

/// Four refusals have a line of the text, and the others have none.
pub fn refusal_line()
    ensures { (text : List ℕ) → HasLines text }
{}

/// A text without the word `inline` is taken as it stands: what its answer rests on is said of its own tokens.
pub fn nothing_to_expand()
    ensures tree { OfEachPlain SpellTheSame }
    ensures too_deep { OfEachPlain (λ text tokens. IsRefusedWhere text r.TooDeep (IsTooDeep tokens)) }
    ensures syntax { OfEachPlain (λ text tokens. IsRefusedWhere text r.Syntax (SpellNothing tokens)) }
    ensures right { OfEachPlain (λ text tokens. IsNeverRefused text r.Inline) }
{}

/// A session over a text that stands for a model runs through a path of its states: each move is one of its state's moves, the only one or the one
/// that the record's next number picks, and leads to the next state, and there are as many as steps. The same record and as many steps are the same path.
pub fn a_session_runs_through_a_path()
    ensures path { OfEachSession (λ o. RunsThroughPaths rules o.limit) }
    ensures one { (model : Running) → RecordGivesRun rules model }
{}

/// Each path of a model's states is played, so each run of a model, however it was found, can be shown: the session on the numbers of a path that is no
/// longer than the limit, with whatever behind them, runs through that path first; where the limit is as many steps as it has, through it and no further.
pub fn each_path_is_played()
    ensures first { OfEachSession (λ o. PlaysEachPath rules o.limit) }
    ensures just { OfEachSession (λ o. PlaysJustThePath rules o.limit) }
{}

/// What a session shows along a path: on the path's numbers, with whatever behind them, it does what the path's steps do, one behind another, and then
/// more. At a state with several moves there are its list and a prompt, and the number's line is read and recorded; then the step's text.
pub fn each_path_is_shown()
    ensures { OfEachSession (ShowsEachPath rules) }
{}

/// The states that sessions over a text come to, by whatever options and choices, are those that paths lead to: what is played is the model's runs, all of
/// them and no other.
pub fn sessions_come_where_paths_lead()
    ensures { (text : List ℕ) (lossy : Bool) (model : Running) → IsModel text lossy model → ComeWherePathsLead text lossy model }
{}
