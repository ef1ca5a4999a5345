//! How the lines of steps begin.
ghost use Rattle.std.specs.Prelude.{◌≡◌, ◌+◌, ◌-◌, ◌%◌, ◌<◌, ◌≤◌, ◌++◌, drop, length, OnOk, OnErr, codes};
ghost use Rattle.std.specs.Fmt.{decimal};

use itoa::write_digits;
use std::alloc::AllocError;
use std::marker::Model;

// Where the digits of a number end.
const END: usize = 32;

// So many bytes are copied at once.
const ROOM: usize = 32;

/// `step N: ` of ten numbers that differ in their last digit alone, which is written where it is asked for: the least of them, and
/// where the words begin.
#[derive(Drop)]
pub struct StepNumbers {
    least: u64,
    begin: usize,
    words: [u8; 64],
}

impl Model for StepNumbers {
    ghost use Rattle.session.specs.Numbers.{Numbers, AreNumbers};

    ghost Value = { Numbers };

    ghost view = { λ s. record { least = s.least; begin = s.begin; words = s.words } };

    ghost invariant = { λ s. AreNumbers s.least s.begin s.words };
}

// Writes `step N` where the digits end, and answers where it begins.
fn write_step(n: u64, words: &mut [u8]) -> usize
    requires { 32 ≤ length words.old }
    ensures begin { result + 5 + length (decimal n) ≡ 32 }
    ensures words { drop result words.new ≡ codes "step " ++ (decimal n ++ drop 32 words.old) }
{
    let from = write_digits(n, words, END);
    let begin = from - 5;
    words[begin..from].copy_from_slice(b"step ");
    begin
}

impl StepNumbers {
    // The ten numbers of which this is one.
    #[inline(never)]
    fn around(n: u64) -> Self
        ensures { result.least ≡ n - n % 10 }
    {
        let mut words = *b"................................: ..............................";
        let begin = write_step(n, &mut words);
        StepNumbers {
            least: n - n % 10,
            begin,
            words,
        }
    }

    /// The numbers below 10.
    pub fn new() -> Self
        ensures { result.least ≡ 0 }
    {
        StepNumbers::around(0)
    }

    // Goes on to the ten numbers of which this is one, where it is none of them.
    #[inline(always)]
    fn reach(&mut self, n: u64)
        ensures least { self.new.least ≤ n }
        ensures most { n < self.new.least + 10 }
    {
        if n < self.least || n - self.least > 9 {
            *self = StepNumbers::around(n);
        }
    }

    /// Appends `step N: `.
    #[inline(always)]
    pub fn add(&mut self, n: u64, text: &mut Vec<u8>) -> Result<(), AllocError>
        ensures added { OnOk result (text.new.items ≡ text.old.items ++ (codes "step " ++ (decimal n ++ codes ": "))) }
        ensures kept { OnErr result (text.new.items ≡ text.old.items) }
    {
        self.reach(n);
        self.words[END - 1] = b'0' + (n - self.least) as u8;
        let end = text.len() + (END + 2 - self.begin);
        text.extend_from_slice(&self.words[self.begin..self.begin + ROOM])?;
        text.truncate(end);
        Ok(())
    }
}
