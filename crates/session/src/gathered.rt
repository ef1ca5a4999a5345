//! The texts of steps that are done and still to be written.
ghost use Rattle.std.specs.Prelude.{◌≡◌, ◌-◌, ◌≤◌, [], length, take, IfErr, OnOk, OnErr};
ghost use Rattle.promela_session.specs.declared.ends.Broken.TheVariants.{Out};
ghost use Rattle.session.specs.Gathered.{are_enough, later, EndsText, CutsTexts};
ghost use Rattle.session.specs.Writes.{CountsAll};
ghost use Rattle.devices.specs.Holdings.{Moved};

use crate::Broken;
use devices::Devices;
use std::alloc::{AllocError, Global};

/// As many bytes are enough to be written at once.
pub const ENOUGH_BYTES: usize = 4096;

/// As many texts are enough.
pub const ENOUGH_TEXTS: usize = 512;

/// The texts of steps that are done and still to be written: one behind another, and where each of them begins.
#[derive(Drop)]
pub struct Gathered {
    pub bytes: Vec<u8>,
    pub begins: Vec<usize>,
}

/// How many of these begin behind the first `taken` bytes, as that many less of so many steps.
fn begun(begins: &[usize], taken: usize, steps: u32) -> u32
    ensures { result ≡ steps - later taken begins.now }
{
    let mut count = steps;
    for begin in begins {
        if taken < *begin {
            count = count.saturating_sub(1);
        }
    }
    count
}

impl Gathered {
    /// No text.
    pub fn new(alloc: Global) -> Self
        ensures bytes { result.bytes.items ≡ [] }
        ensures begins { result.begins.items ≡ [] }
    {
        Gathered {
            bytes: Vec::new(alloc),
            begins: Vec::new(alloc),
        }
    }

    /// Counts what was added behind the first bytes as the text of a step; an empty one behind none is written already. Want of memory
    /// takes it back.
    #[inline(always)]
    pub fn end_text(&mut self, begin: usize) -> Result<(), AllocError>
        requires { begin ≤ length self.old.bytes.items }
        ensures ok { OnOk result (EndsText begin self.old.bytes.items self.old.begins.items self.new.bytes.items self.new.begins.items) }
        ensures err_bytes { OnErr result (self.new.bytes.items ≡ take begin self.old.bytes.items) }
        ensures err_begins { OnErr result (self.new.begins.items ≡ self.old.begins.items) }
    {
        if self.bytes.len() == begin && self.begins.is_empty() {
            return Ok(());
        }
        if self.begins.push(begin).is_err() {
            self.bytes.truncate(begin);
            return Err(AllocError);
        }
        Ok(())
    }

    /// Whether there is enough to be written: 4,096 bytes, or 512 texts.
    pub fn is_enough(&self) -> bool
        ensures { result ≡ are_enough self.now.bytes.items self.now.begins.items }
    {
        self.bytes.len() >= ENOUGH_BYTES || self.begins.len() >= ENOUGH_TEXTS
    }

    // Writes the texts that wait.
    #[inline(never)]
    fn write_waiting<D: Devices>(&mut self, steps: &mut u32, devices: &mut D) -> Result<(), Broken>
        ensures text { OnOk result (Moved (D.holds devices.old) (D.holds devices.new) [] self.old.bytes.items []) }
        ensures same { OnOk result (steps.new ≡ steps.old) }
        ensures cut { OnErr result (CutsTexts (D.holds devices.old) (D.holds devices.new) self.old.bytes.items self.old.begins.items steps.old steps.new) }
        ensures broken { IfErr result (λ e. e ≡ Out) }
        ensures bytes { self.new.bytes.items ≡ [] }
        ensures begins { self.new.begins.items ≡ [] }
        ensures count { CountsAll result (D.holds devices.old).failures (D.holds devices.new).failures }
    {
        let written = devices.write_counted(&self.bytes);
        if let Err(taken) = written {
            *steps = begun(&self.begins, taken, *steps);
        }
        self.bytes.clear();
        self.begins.clear();
        match written {
            Ok(()) => Ok(()),
            Err(_) => Err(Broken::Out),
        }
    }

    /// Writes all texts. Where the output fails, the steps whose texts it has not begun to take are counted no more.
    #[inline(always)]
    pub fn write<D: Devices>(&mut self, steps: &mut u32, devices: &mut D) -> Result<(), Broken>
        ensures text { OnOk result (Moved (D.holds devices.old) (D.holds devices.new) [] self.old.bytes.items []) }
        ensures same { OnOk result (steps.new ≡ steps.old) }
        ensures cut { OnErr result (CutsTexts (D.holds devices.old) (D.holds devices.new) self.old.bytes.items self.old.begins.items steps.old steps.new) }
        ensures broken { IfErr result (λ e. e ≡ Out) }
        ensures bytes { self.new.bytes.items ≡ [] }
        ensures begins { self.new.begins.items ≡ [] }
        ensures count { CountsAll result (D.holds devices.old).failures (D.holds devices.new).failures }
    {
        if self.bytes.is_empty() && self.begins.is_empty() {
            return Ok(());
        }
        self.write_waiting(steps, devices)
    }
}
