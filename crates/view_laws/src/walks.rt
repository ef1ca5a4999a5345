//! Laws of walks, which functions without a body state.

ghost use Rattle.std.specs.Prelude.{ℕ, List};
ghost use Rattle.promela_session.specs.Events.{Part};
ghost use Rattle.promela_session.specs.declared.ends.End.{End};
ghost use Rattle.promela_session.specs.declared.ends.Options.{Options};
ghost use Rattle.view_walk.specs.Walks.{IsWalk, Walked};
ghost use Rattle.view_laws.specs.Along.{HasPath};
ghost use Rattle.view_laws.specs.Played.{GoesAlong, IsSessionOn};

/// A walk is a path of the model's states: the numbers of its choices are the path's, it has as many steps, and behind so many of its steps it is in the
/// state that as many of the choices lead to. The machine is in the state behind those that stand.
pub fn a_walk_is_a_path()
    ensures { (w : Walked) → IsWalk w → HasPath w }
{}

/// The record of a walk plays to the same state: a session over the walk's text, on the record of all its choices with whatever behind it, runs through the
/// walk's path first; where its limit ends it on the way, through just as many steps of that path, and so to the state behind as many choices.
pub fn its_record_plays_to_the_same_state()
    ensures { (text : List ℕ) (w : Walked) (o : Options) (session : List ℕ → Part End) → IsSessionOn text w o session → GoesAlong w o session text }
{}
