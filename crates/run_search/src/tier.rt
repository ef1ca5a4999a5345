//! A level of what a process is offered.

ghost use Rattle.std.specs.Prelude.{◌≡◌};
ghost use Rattle.promela_run.specs.Moves.{pick};

use promela_run::moves::Pick;

/// A level of what a process is offered.
#[derive(Clone, Copy)]
pub(crate) struct Tier {
    pub process: usize,
    pub level: usize,
}

impl Tier {
    /// An offer of it.
    #[inline(always)]
    pub fn pick(self, place: usize) -> Pick
        ensures { result ≡ pick self.process self.level place }
    {
        Pick {
            process: self.process,
            level: self.level,
            place,
        }
    }
}
