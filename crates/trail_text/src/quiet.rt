//! Statements that only one of the two has: Spin leaves out most jumps, and shows what the machine has not.

ghost use Rattle.std.specs.Prelude.{◌≡◌, ◌&&◌, codes};
ghost use Rattle.trail_text.specs.Shown.{begins, is_of_machine, is_jump, is_of_spin};

// What Spin shows of jumps, of the ends of selections and of sequences.
const JUMPS: [&[u8]; 10] = [
    b".(goto)",
    b"break",
    b"IF",
    b"DO",
    b"ATOMIC",
    b"UNLESS",
    b"sub-sequence",
    b"(1)",
    b"else",
    b"-end-",
];

fn is_jump(text: &[u8]) -> bool
    ensures { result ≡ is_jump text.now }
{
    for jump in JUMPS {
        if text == jump {
            return true;
        }
    }
    false
}

/// Whether Spin may show this of a statement that is no step of the machine: of a record that is declared behind a statement it shows nothing.
pub fn is_of_spin(text: &[u8]) -> bool
    ensures { result ≡ is_of_spin text.now }
{
    is_jump(text) || text.is_empty() || text.starts_with(b"goto ") || text.starts_with(b"D_STEP")
}

/// Whether the machine may take a step with this text that Spin does not show.
pub fn is_of_machine(text: &[u8]) -> bool
    ensures { result ≡ is_of_machine text.now }
{
    text == b"else".as_slice()
        || text == b"break".as_slice()
        || text == b"skip".as_slice()
        || text.starts_with(b"goto ")
}

/// Whether this is what Spin shows of a `break`: `goto :b0`.
pub fn is_break(text: &[u8]) -> bool
    ensures { result ≡ begins text.now (codes "goto :b") }
{
    text.starts_with(b"goto :b")
}

/// Whether two spelled statements are both a `printm`, which Spin shows by numbers.
pub fn is_printm(spelled: &[u8], wanted: &[u8]) -> bool
    ensures { result ≡ (begins spelled.now (codes "printm") && begins wanted.now (codes "printm")) }
{
    spelled.starts_with(b"printm") && wanted.starts_with(b"printm")
}
