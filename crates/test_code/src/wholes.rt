//! Sessions that each device fails in, and the conversions of their choices.
use crate::row::{CodeRow, ENDLESS, FailingCall, GLOBALS, ONCE, RowWay, STEPS, TWO};
use crate::sample::Sample;
use diagnostics::Fault;
use session::{Cause, Options};

/// Two processes, each assigning once: the younger moves first.
pub const TWO_PROCESSES: CodeRow = CodeRow {
    name: "two processes",
    way: RowWay::Session,
    sample: TWO,
    options: STEPS,
    choices: b"2\n1\n",
    failing: FailingCall::Never,
    out: b"choice 1: proc 0 (A) line 2 [x = 1]\nchoice 2: proc 1 (B) line 3 [y = 2]\nchoose 1..2\nstep 1: proc 1 (B) line 3 [y = 2]\nchoice 1: proc 0 (A) line 2 [x = 1]\nchoice 2: proc 1 (B) line 3 [-end-]\nchoose 1..2\nstep 2: proc 0 (A) line 2 [x = 1]\nstep 3: proc 1 (B) line 3 [-end-]\nstep 4: proc 0 (A) line 2 [-end-]\nend: valid, steps 4\n",
    answers: 0,
    last: b"",
    rec: b"2\n1\n",
    read: 4,
    calls: 4,
    status: 0,
    steps: 4,
    cause: Cause::Valid,
};

/// Four bad lines before a number.
pub const BAD_LINES: CodeRow = CodeRow {
    name: "bad lines",
    way: RowWay::Session,
    sample: ONCE,
    options: GLOBALS,
    choices: b"0\n3\nx\n\n2\n",
    failing: FailingCall::Never,
    out: b"choice 1: proc 0 (:init:) line 1 [x = 1]\nchoice 2: proc 0 (:init:) line 1 [x = 2]\nchoose 1..2\n",
    answers: 4,
    last: b"global x = 2\nend: valid, steps 2\n",
    rec: b"2\n",
    read: 9,
    calls: 9,
    status: 0,
    steps: 2,
    cause: Cause::Valid,
};

/// A last line without a line feed.
pub const LAST_LINE: CodeRow = CodeRow {
    name: "a last line",
    way: RowWay::Session,
    sample: ENDLESS,
    options: GLOBALS,
    choices: b"1",
    failing: FailingCall::Never,
    out: b"choice 1: proc 0 (:init:) line 1 [x = 1]\nchoice 2: proc 0 (:init:) line 1 [x = 2]\nchoose 1..2\nglobal x = 1\nchoice 1: proc 0 (:init:) line 1 [x = 1]\nchoice 2: proc 0 (:init:) line 1 [x = 2]\nchoose 1..2\nstop: choices ended, steps 1\n",
    answers: 0,
    last: b"",
    rec: b"1\n",
    read: 1,
    calls: 2,
    status: 5,
    steps: 1,
    cause: Cause::ChoicesEnded,
};

/// A step that prints and then is a fault.
pub const FAULT: CodeRow = CodeRow {
    name: "a fault",
    way: RowWay::Session,
    sample: Sample::Countdown(2),
    options: STEPS,
    choices: b"2",
    failing: FailingCall::Never,
    out: b"choice 1: 1\nchoice 2: 2\nchoose 1..2\nfault F2 (zero divisor): step 1: 2\n",
    answers: 0,
    last: b"",
    rec: b"2\n",
    read: 1,
    calls: 2,
    status: 2,
    steps: 0,
    cause: Cause::Fault(Fault::ZeroDivisor),
};

/// `q` at the second question, and printed stars.
pub const QUIT: CodeRow = CodeRow {
    name: "a run that quits",
    way: RowWay::Session,
    sample: Sample::Countdown(9),
    options: STEPS,
    choices: b"1\n \tq\r\n1\n",
    failing: FailingCall::Never,
    out: b"choice 1: 1\nchoice 2: 2\nchoose 1..2\nstep 1: 1\n*choice 1: 1\nchoice 2: 2\nchoose 1..2\n",
    answers: 0,
    last: b"end: quit, steps 1\n",
    rec: b"1\n",
    read: 7,
    calls: 7,
    status: 0,
    steps: 1,
    cause: Cause::Quit,
};

/// The limit, at a state with moves.
pub const LIMIT: CodeRow = CodeRow {
    name: "a run to the limit",
    way: RowWay::Session,
    sample: Sample::Countdown(9),
    options: Options { limit: 2, ..STEPS },
    choices: b"002\n 1\n1\n",
    failing: FailingCall::Never,
    out: b"choice 1: 1\nchoice 2: 2\nchoose 1..2\nstep 1: 2\n*choice 1: 1\nchoice 2: 2\nchoose 1..2\nstep 2: 1\n*stop: step limit, steps 2\n",
    answers: 0,
    last: b"",
    rec: b"2\n1\n",
    read: 7,
    calls: 7,
    status: 5,
    steps: 2,
    cause: Cause::StepLimit,
};

/// No question is asked.
pub const NO_QUESTION: CodeRow = CodeRow {
    name: "no question",
    way: RowWay::Session,
    sample: TWO,
    options: Options { limit: 0, ..STEPS },
    choices: b"1\n",
    failing: FailingCall::Never,
    out: b"stop: step limit, steps 0\n",
    answers: 0,
    last: b"",
    rec: b"",
    read: 0,
    calls: 0,
    status: 5,
    steps: 0,
    cause: Cause::StepLimit,
};

/// Each of them, and the conversion of its choices.
pub static WHOLES: [CodeRow; 14] = [
    TWO_PROCESSES,
    BAD_LINES,
    LAST_LINE,
    FAULT,
    QUIT,
    LIMIT,
    NO_QUESTION,
    CodeRow {
        name: "two processes, converted",
        way: RowWay::Conversion,
        out: b"choices 2\n2 1 3\n1 0 2\n",
        answers: 0,
        last: b"",
        rec: b"",
        ..TWO_PROCESSES
    },
    CodeRow {
        name: "bad lines, converted",
        way: RowWay::Conversion,
        out: b"choices 2\n2 0 1\n",
        answers: 0,
        last: b"",
        rec: b"",
        ..BAD_LINES
    },
    CodeRow {
        name: "a last line, converted",
        way: RowWay::Conversion,
        out: b"choices 2\n1 0 1\n",
        answers: 0,
        last: b"",
        rec: b"",
        ..LAST_LINE
    },
    CodeRow {
        name: "a fault, converted",
        way: RowWay::Conversion,
        out: b"choices 2\n2 0 2\n",
        answers: 0,
        last: b"",
        rec: b"",
        ..FAULT
    },
    CodeRow {
        name: "a run that quits, converted",
        way: RowWay::Conversion,
        out: b"choices 2\n1 0 1\n",
        answers: 0,
        last: b"",
        rec: b"",
        ..QUIT
    },
    CodeRow {
        name: "a run to the limit, converted",
        way: RowWay::Conversion,
        out: b"choices 2\n2 0 2\n1 0 1\n",
        answers: 0,
        last: b"",
        rec: b"",
        ..LIMIT
    },
    CodeRow {
        name: "no question, converted",
        way: RowWay::Conversion,
        out: b"choices 2\n",
        answers: 0,
        last: b"",
        rec: b"",
        ..NO_QUESTION
    },
];

/// The same on their records, and on their choices in the second version; and a few that end so behind other choices.
pub static AGAIN: [CodeRow; 15] = [
    CodeRow {
        name: "two processes, from the record",
        choices: b"2\n1\n",
        read: 4,
        calls: 4,
        ..TWO_PROCESSES
    },
    CodeRow {
        name: "the second version",
        choices: b"choices 2\n2 1 3\n1 0 2\n",
        read: 22,
        calls: 22,
        ..TWO_PROCESSES
    },
    CodeRow {
        name: "blanks and zeros in the second version",
        choices: b" \tchoices 2\r\n\t002 \t 01\t0003 \r\n1 000 2",
        read: 37,
        calls: 38,
        ..TWO_PROCESSES
    },
    CodeRow {
        name: "bad lines, from the record",
        choices: b"2\n",
        answers: 0,
        read: 2,
        calls: 2,
        ..BAD_LINES
    },
    CodeRow {
        name: "bad lines, in the second version",
        choices: b"choices 2\n2 0 1\n",
        answers: 0,
        read: 16,
        calls: 16,
        ..BAD_LINES
    },
    CodeRow {
        name: "no last line feed",
        choices: b"0\n3\nx\n\n2",
        answers: 4,
        read: 8,
        calls: 9,
        ..BAD_LINES
    },
    CodeRow {
        name: "a last line, from the record",
        choices: b"1\n",
        read: 2,
        calls: 3,
        ..LAST_LINE
    },
    CodeRow {
        name: "a last line, in the second version",
        choices: b"choices 2\n1 0 1\n",
        read: 16,
        calls: 17,
        ..LAST_LINE
    },
    CodeRow {
        name: "eighty bytes and a line feed",
        choices: b"00000000000000000000000000000000000000000000000000000000000000000000000000000001\n",
        read: 81,
        calls: 82,
        ..LAST_LINE
    },
    CodeRow {
        name: "a fault, from the record",
        choices: b"2\n",
        read: 2,
        calls: 2,
        ..FAULT
    },
    CodeRow {
        name: "a fault, in the second version",
        choices: b"choices 2\n2 0 2\n",
        read: 16,
        calls: 16,
        ..FAULT
    },
    CodeRow {
        name: "a run to the limit, from the record",
        choices: b"2\n1\n",
        read: 4,
        calls: 4,
        ..LIMIT
    },
    CodeRow {
        name: "a run to the limit, in the second version",
        choices: b"choices 2\n2 0 2\n1 0 1\n",
        read: 22,
        calls: 22,
        ..LIMIT
    },
    CodeRow {
        name: "no question, from the record",
        choices: b"",
        read: 0,
        calls: 0,
        ..NO_QUESTION
    },
    CodeRow {
        name: "no question, in the second version",
        choices: b"choices 2\n",
        read: 0,
        calls: 0,
        ..NO_QUESTION
    },
];
