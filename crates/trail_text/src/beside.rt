//! What Spin prints beside the steps of a trail: to which line a claim moves, and where a cycle begins.

ghost use Rattle.std.specs.Prelude.{◌≡◌, Some, IfSome, if◌then◌else◌};
ghost use Rattle.trail_text.specs.Shown.{tells_cycle};
ghost use Rattle.trail_text.specs.Beside.{claim_line};

use crate::scan::{Lines, behind_blanks, number_first};

/// What a line of a trail says that tells of no process.
#[derive(Clone, Copy, Debug, PartialEq, Eq)]
pub enum Beside {
    /// The claim moves to this line.
    Claim(usize),
    /// A cycle begins.
    Cycle,
}

// What a line says, if it is such a one: `Never claim moves to line 4`, `  <<<<<START OF CYCLE>>>>>`.
fn beside_in(line: &[u8]) -> Option<Beside>
    ensures { result ≡ (if tells_cycle line.now then Some Beside.Cycle else claim_line line.now) }
{
    if behind_blanks(line).starts_with(b"<<<<<START OF CYCLE") {
        return Some(Beside::Cycle);
    }
    let rest = line.strip_prefix(b"Never claim moves to line ")?;
    let (number, _) = number_first(rest)?;
    Some(Beside::Claim(number))
}

/// The next of these lines that says something beside the steps, with its number in the file.
pub fn next_beside(lines: &mut Lines<'_>) -> Option<(usize, Beside)>
    ensures { IfSome result (λ said. said.0 ≡ lines.new.row) }
{
    for _ in 0..lines.rest.len() {
        let line = lines.next()?;
        if let Some(beside) = beside_in(line) {
            return Some((lines.row, beside));
        }
    }
    None
}
