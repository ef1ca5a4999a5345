//! A machine as a session sees it.
ghost use Rattle.std.specs.Prelude.{◌≡◌, ◌++◌, List, ℕ, OnOk, OnErr, IfOk};
ghost use Rattle.std.specs.Io.{StartsWith};
ghost use Rattle.std.specs.List.{Contains};
ghost use Rattle.promela_machine.specs.Machine.{Rules};
ghost use Rattle.session.specs.Takes.{CanBeShown, CanBeTaken, StopsForGood, TakesStep, StaysStopped};
ghost use Rattle.session.specs.Reports.{reported, IsVerdict};

use diagnostics::Stop;
use std::alloc::AllocError;

/// What can be told of a state beside its moves.
#[derive(Clone, Copy)]
pub enum Report {
    /// The value lines of the last step, of global and of local variables.
    Values(bool, bool),
    /// The lines that follow the last line of an invalid end.
    Ending,
}

/// A machine whose moves are taken one by one. Its `rules` are what contracts know of it: as functions of its state, the
/// list of moves, what a step leads to, where it has stopped, and the texts.
pub trait Machine {
    /// What can be done in a state.
    type Move: Drop;

    /// Its moves, steps and texts.
    ghost rules: { Rules Self Self.Move };

    /// Lists all moves of the present state, in order, in the place of what the list had: it is lent, so that a step without a
    /// question need not take memory. A machine that has stopped has none. Where memory is refused the list has any moves.
    fn moves(&self, moves: &mut Vec<Self::Move>) -> Result<(), AllocError>
        ensures all { OnOk result (moves.new.items ≡ rules.moves self.now) }
        ensures stopped { OnOk result (StopsForGood rules self.now moves.new.items) };

    /// Appends the text of a move of the present state, or of the one at which the machine has stopped. Where memory is refused,
    /// here and below, the text has its old bytes, perhaps with more behind them.
    fn show(&self, m: &Self::Move, text: &mut Vec<u8>) -> Result<(), AllocError>
        requires present { CanBeShown rules self.now m.now }
        ensures added { OnOk result (text.new.items ≡ text.old.items ++ rules.text self.now m.now) }
        ensures kept { OnErr result (StartsWith text.new.items text.old.items) };

    /// The number of the process of a move of the present state and its line, of a move of two processes those of the sender.
    fn origin(&self, m: &Self::Move) -> (u32, u32)
        requires present { Contains (rules.moves self.now) m.now }
        ensures { result ≡ rules.origin self.now m.now };

    /// Takes a move of the present state, and appends what it prints. After a fault or want of memory the machine has stopped:
    /// each later call answers the same, and changes nothing. The move can still be shown, with the text that it had. The text
    /// has its old bytes, perhaps with more behind them.
    fn take(&mut self, m: &Self::Move, text: &mut Vec<u8>) -> Result<(), Stop>
        requires present { CanBeTaken rules self.old m.now }
        ensures step { Contains (rules.moves self.old) m.now → TakesStep rules self.old m.now self.new text.old.items text.new.items result }
        ensures stopped { StaysStopped rules self.old self.new result }
        ensures kept { OnErr result (StartsWith text.new.items text.old.items) };

    /// Appends what is asked for, and of an ending answers whether it is a valid one.
    fn report(&self, what: Report, text: &mut Vec<u8>) -> Result<bool, AllocError>
        ensures verdict { IfOk result (IsVerdict rules self.now what) }
        ensures added { OnOk result (text.new.items ≡ text.old.items ++ reported rules self.now what) }
        ensures kept { OnErr result (StartsWith text.new.items text.old.items) };
}
