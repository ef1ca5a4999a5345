//! Laws of ends and of texts.

ghost use Rattle.std.specs.Prelude.{MatchBool};
ghost use Rattle.pml_program.specs.declared.program.Seq.{Seq};
ghost use Rattle.promela_process.specs.Control.{Control};
ghost use Rattle.pml_flow.specs.Marked.{IsValidEnd};
ghost use Rattle.pml_flow.specs.Graph.{Placed};
ghost use Rattle.promela_run.specs.World.{may_end};
ghost use Rattle.run_texts.specs.Staying.{TextsStay};

/// At a point of a body a process may end exactly where that is a valid end point.
pub fn ends_are_valid()
    ensures { (b : Seq) (c : Control) → Placed b c → MatchBool (may_end b c) (IsValidEnd b c) (IsValidEnd b c → ⊥) }
{}

/// The text of a move stays while no process but younger ones come.
pub fn texts_stay()
    ensures { TextsStay }
{}
