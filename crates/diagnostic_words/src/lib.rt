//! What the lines of faults and of refusals say of them: words that no run depends on.
#![tactic(auto)]

ghost use Rattle.std.specs.Prelude.{◌≡◌};
ghost use Rattle.diagnostic_words.specs.Words.{fault_words, refusal_words};

use diagnostics::{Fault, Refusal};

/// What it is, as a fault's line says it.
pub fn of_fault(fault: Fault) -> &'static [u8]
    ensures { result.now ≡ fault_words fault }
{
    match fault {
        Fault::AssertionViolated => b"assertion violated",
        Fault::ZeroDivisor => b"zero divisor",
        Fault::IndexOutOfRange => b"index out of range",
        Fault::NoSuchChannel => b"no such channel",
        Fault::WrongNumberOfFields => b"wrong number of fields",
        Fault::TooManyChannels => b"too many channels",
        Fault::DStepBlocks => b"d_step blocks",
        Fault::DStepTooLong => b"d_step too long",
    }
}

/// What it is, as a refusal's line says it.
pub fn of_refusal(refusal: Refusal) -> &'static [u8]
    ensures { result.now ≡ refusal_words refusal }
{
    match refusal {
        Refusal::TextTooLong => b"text too long",
        Refusal::Lexical => b"lexical",
        Refusal::LeftOut => b"left out",
        Refusal::TooDeep => b"too deep",
        Refusal::Syntax => b"syntax",
        Refusal::NameTwice => b"name twice",
        Refusal::UnknownName => b"unknown name",
        Refusal::WrongKind => b"wrong kind",
        Refusal::ArgumentCount => b"wrong number of arguments",
        Refusal::Label => b"label",
        Refusal::BreakOutsideDo => b"break outside do",
        Refusal::DStep => b"d_step",
        Refusal::CircleOfGotos => b"circle of gotos",
        Refusal::NumberOutOfRange => b"number out of range",
        Refusal::TooManyCells => b"too many cells",
        Refusal::NoProcess => b"no process",
        Refusal::TooManyAtStart => b"too many at the start",
        Refusal::Initialiser => b"initialiser",
        Refusal::Inline => b"inline",
    }
}
