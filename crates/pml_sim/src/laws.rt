//! Laws of states.

ghost use Rattle.std.specs.Prelude.{◌≡◌, Bool, List, [], ℕ, length, take};
ghost use Rattle.std.specs.List.{flat_map};
ghost use Rattle.promela_machine.specs.Machine.{Goes};
ghost use Rattle.promela_run.specs.State.{State};
ghost use Rattle.run_values.specs.Changed.{wanted_changes};
ghost use Rattle.promela_run.specs.declared.moves.Move.{Move};
ghost use Rattle.pml_sim.specs.Origins.{TextsNameOrigins};
ghost use Rattle.promela_run.specs.World.{Running, first, changed_lines, world_step};
ghost use Rattle.pml_sim.specs.Lent.{changes, value_line};

/// The numbers before the last step are those of the state before it, as far as its variables are still there.
pub fn steps_lead_back()
    ensures { (s t : Running) (m : Move) (printed : List ℕ) → world_step s m ≡ Goes t printed → t.past ≡ take (length t.state.frames) s.state.frames }
{}

/// The text of a move names the process and the line that the move comes from, where its statement is there.
pub fn texts_name_origins()
    ensures { TextsNameOrigins }
{}

/// Before the first step nothing has changed.
pub fn nothing_has_changed_at_first()
    ensures { (s : State) (lossy : Bool) → changes (first s lossy) ≡ [] }
{}

/// The value lines of a step are those of its changes, as far as they are wanted.
pub fn lines_are_of_changes()
    ensures { (w : Running) (globals locals : Bool) → changed_lines w globals locals ≡ flat_map (value_line w) (wanted_changes globals locals (changes w)) }
{}
