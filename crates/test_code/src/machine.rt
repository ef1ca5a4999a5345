//! What the samples do.
ghost use Rattle.std.specs.Prelude.{◌≡◌, Err};
ghost use Rattle.test_code.specs.Samples.{sample_rules, moves_of, rounds_next, pair_next, text_of, values_of};

use crate::sample::{ProcessPair, Sample, SettingRounds};
use diagnostics::Fault;
use session::{Machine, Report, Stop};
use std::alloc::AllocError;

impl SettingRounds {
    // What a move leads to.
    fn next(self, m: u8) -> SettingRounds
        ensures { result ≡ rounds_next self m }
    {
        if m == 3 {
            SettingRounds {
                dead: true,
                changed: false,
                ..self
            }
        } else {
            SettingRounds {
                left: self.left.saturating_sub(1),
                x: m,
                changed: self.x != m,
                ..self
            }
        }
    }
}

impl ProcessPair {
    // What a move leads to.
    fn next(self, m: u8) -> ProcessPair
        ensures { result ≡ pair_next self m }
    {
        if m == 1 {
            ProcessPair {
                a: self.a.saturating_add(1),
                ..self
            }
        } else {
            ProcessPair {
                b: self.b.saturating_add(1),
                ..self
            }
        }
    }
}

impl Sample {
    // What can be done.
    fn moves_of(&self) -> &'static [u8]
        ensures { result.now ≡ moves_of self.now }
    {
        match *self {
            Sample::Rounds(r) if r.endless || r.left > 0 => &[1, 2],
            Sample::Rounds(r) if r.dead => &[],
            Sample::Rounds(_) => &[3],
            Sample::Pair(p) => match (p.a == 0 || p.a == 1 && p.b == 2, p.b < 2) {
                (true, true) => &[1, 2],
                (true, false) => &[1],
                (false, true) => &[2],
                (false, false) => &[],
            },
            Sample::Countdown(0) | Sample::Stopped(_, _) => &[],
            Sample::Countdown(1) => &[1],
            Sample::Countdown(_) => &[1, 2],
        }
    }

    // The text of a move.
    fn text_of(&self, m: u8) -> &'static [u8]
        ensures { result.now ≡ text_of self.now m }
    {
        match *self {
            Sample::Rounds(_) => match m {
                1 => b"proc 0 (:init:) line 1 [x = 1]",
                2 => b"proc 0 (:init:) line 1 [x = 2]",
                _ => b"proc 0 (:init:) line 1 [-end-]",
            },
            Sample::Pair(p) => match m {
                1 if p.a == 0 => b"proc 0 (A) line 2 [x = 1]",
                1 => b"proc 0 (A) line 2 [-end-]",
                _ if p.b == 0 => b"proc 1 (B) line 3 [y = 2]",
                _ => b"proc 1 (B) line 3 [-end-]",
            },
            Sample::Countdown(_) | Sample::Stopped(_, _) => match m {
                1 => b"1",
                _ => b"2",
            },
        }
    }

    // The value lines of the last step: a global variable alone may have changed.
    fn values_of(&self, globals: bool, _locals: bool) -> &'static [u8]
        ensures { result.now ≡ values_of self.now globals _locals }
    {
        match *self {
            Sample::Rounds(r) if globals && r.changed => match r.x {
                1 => b"global x = 1\n",
                _ => b"global x = 2\n",
            },
            _ => b"",
        }
    }

    // Stops a countdown at a move.
    fn stop(&mut self, m: u8, why: Stop) -> Result<(), Stop>
        ensures stops { self.new ≡ Sample.Stopped m why }
        ensures why { result ≡ Err why }
    {
        *self = Sample::Stopped(m, why);
        Err(why)
    }
}

impl Machine for Sample {
    type Move = u8;

    ghost rules = { sample_rules };

    fn moves(&self, moves: &mut Vec<u8>) -> Result<(), AllocError> {
        moves.clear();
        moves.extend_from_slice(self.moves_of())
    }

    fn show(&self, m: &u8, text: &mut Vec<u8>) -> Result<(), AllocError> {
        text.extend_from_slice(self.text_of(*m))
    }

    fn origin(&self, m: &u8) -> (u32, u32) {
        match *self {
            Sample::Rounds(_) => (0, 1),
            Sample::Pair(_) => { if *m == 1 { (0, 2) } else { (1, 3) } }
            Sample::Countdown(_) | Sample::Stopped(_, _) => (0, u32::from(*m)),
        }
    }

    fn take(&mut self, m: &u8, text: &mut Vec<u8>) -> Result<(), Stop> {
        match *self {
            Sample::Rounds(r) => {
                *self = Sample::Rounds(r.next(*m));
                Ok(())
            }
            Sample::Pair(p) => {
                *self = Sample::Pair(p.next(*m));
                Ok(())
            }
            Sample::Countdown(n) => {
                if text.push(b'*').is_err() {
                    return self.stop(*m, Stop::Memory);
                }
                if n == 2 && *m == 2 {
                    return self.stop(*m, Stop::Fault(Fault::ZeroDivisor));
                }
                *self = Sample::Countdown(n.saturating_sub(u32::from(*m)));
                Ok(())
            }
            Sample::Stopped(_, why) => Err(why),
        }
    }

    fn report(&self, what: Report, text: &mut Vec<u8>) -> Result<bool, AllocError> {
        match what {
            Report::Values(globals, locals) => {
                text.extend_from_slice(self.values_of(globals, locals))?;
                Ok(true)
            }
            Report::Ending => Ok(true),
        }
    }
}
