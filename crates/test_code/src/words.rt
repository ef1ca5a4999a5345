//! The numbers and the words of faults and refusals.
use crate::compare::same;
use diagnostics::{Fault, Refusal};

static FAULTS: [(Fault, u8, &str); 8] = [
    (Fault::AssertionViolated, 1, "assertion violated"),
    (Fault::ZeroDivisor, 2, "zero divisor"),
    (Fault::IndexOutOfRange, 3, "index out of range"),
    (Fault::NoSuchChannel, 4, "no such channel"),
    (Fault::WrongNumberOfFields, 5, "wrong number of fields"),
    (Fault::TooManyChannels, 6, "too many channels"),
    (Fault::DStepBlocks, 7, "d_step blocks"),
    (Fault::DStepTooLong, 8, "d_step too long"),
];

static REFUSALS: [(Refusal, u8, &str); 19] = [
    (Refusal::TextTooLong, 1, "text too long"),
    (Refusal::Lexical, 2, "lexical"),
    (Refusal::LeftOut, 3, "left out"),
    (Refusal::TooDeep, 4, "too deep"),
    (Refusal::Syntax, 5, "syntax"),
    (Refusal::NameTwice, 6, "name twice"),
    (Refusal::UnknownName, 7, "unknown name"),
    (Refusal::WrongKind, 8, "wrong kind"),
    (Refusal::ArgumentCount, 9, "wrong number of arguments"),
    (Refusal::Label, 10, "label"),
    (Refusal::BreakOutsideDo, 11, "break outside do"),
    (Refusal::DStep, 12, "d_step"),
    (Refusal::CircleOfGotos, 13, "circle of gotos"),
    (Refusal::NumberOutOfRange, 14, "number out of range"),
    (Refusal::TooManyCells, 15, "too many cells"),
    (Refusal::NoProcess, 16, "no process"),
    (Refusal::TooManyAtStart, 17, "too many at the start"),
    (Refusal::Initialiser, 18, "initialiser"),
    (Refusal::Inline, 19, "inline"),
];

#[test]
fn faults(rt: HostRuntime) {
    for (fault, number, words) in &FAULTS {
        same(&rt, words, "its number", fault.number(), *number);
        same(
            &rt,
            words,
            "its words",
            diagnostic_words::of_fault(*fault),
            words.as_bytes(),
        );
    }
}

#[test]
fn refusals(rt: HostRuntime) {
    for (refusal, number, words) in &REFUSALS {
        same(&rt, words, "its number", refusal.number(), *number);
        same(
            &rt,
            words,
            "its words",
            diagnostic_words::of_refusal(*refusal),
            words.as_bytes(),
        );
    }
}
