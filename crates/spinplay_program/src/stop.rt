// Why there is no run.
ghost use Rattle.std.specs.Prelude.{◌≡◌};

use program_files::fault::NoFile;
use std::alloc::AllocError;

// Why there is no run.
#[derive(Drop)]
pub enum NoRun {
    Words(clap::Error),
    NotText,
    ConvertWithRecord,
    // Options that are no use together.
    NotTogether,
    File(NoFile),
    Memory,
}

/// Why there is no run, and whether more of it is asked for.
#[derive(Drop)]
pub struct Unplayed {
    pub stop: NoRun,
    pub explains: bool,
}

impl Unplayed {
    /// Both.
    pub fn new(stop: NoRun, explains: bool) -> Unplayed
        ensures stop { result.stop ≡ stop }
        ensures explains { result.explains ≡ explains }
    {
        Unplayed { stop, explains }
    }
}

impl From<AllocError> for NoRun {
    fn from(_error: AllocError) -> NoRun {
        NoRun::Memory
    }
}
