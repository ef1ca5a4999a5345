//! Laws of what is shown on a walk: it hangs on the choices that stand, whatever way led there.
#![tactic(auto)]

ghost use Rattle.std.specs.Prelude.{◌≡◌, ℕ, Some};
ghost use Rattle.promela_run.specs.State.{first_state};
ghost use Rattle.view_walk.specs.Walks.{IsWalk, Walked, started};
ghost use Rattle.walk_laws.specs.Shown.{AreAlike, IsBack, IsAtFirst, ShowTheSame};

/// Two walks through one model on which the same choices stand show the same: the machine is in one state on both.
pub fn the_same_choices_show_the_same()
    ensures { (v w : Walked) → IsWalk v → IsWalk w → AreAlike v w → ShowTheSame v w }
{}

/// Behind a choice and a step back a walk shows what it showed before.
pub fn back_shows_what_stood_before()
    ensures { (v w : Walked) (k : ℕ) → IsWalk v → IsWalk w → IsBack v k w → ShowTheSame v w }
{}

/// A walk without a choice that stands shows the first state of its model.
pub fn restart_shows_the_first_state()
    ensures { (w : Walked) → IsWalk w → IsAtFirst w → started w.lossy (first_state w.program) ≡ Some w.state }
{}
