//! Sessions of the first version: bad lines, lines too long, choices that end early, devices that fail.
use crate::compare::same;
use crate::player::{SampleOutcome, played};
use crate::row::{Choices, CodeRow, ENDLESS, FailingCall, GLOBALS, RowTable, RowWay};
use crate::wholes::{AGAIN, BAD_LINES, QUIT, TWO_PROCESSES};
use session::{Cause, Options};
use std::alloc::Global;
use std::process::Abort;

/// What stands behind a row is what it wants.
pub fn compares<R: Abort>(rt: &R, row: &CodeRow, out: &[u8], behind: &SampleOutcome) {
    let name = row.name;
    same(rt, name, "the output", behind.out.as_slice(), out);
    same(rt, name, "the record", behind.rec.as_slice(), row.rec);
    same(rt, name, "bytes read", behind.read, row.read);
    same(rt, name, "calls", behind.calls, row.calls);
    same(rt, name, "the end", behind.end, row.end());
    same(
        rt,
        name,
        "asked after the end",
        behind.asked_after_end,
        false,
    );
}

/// Plays a row.
pub fn plays<R: Abort>(rt: &R, alloc: Global, row: &CodeRow) {
    let out = row.output(rt, alloc);
    let behind = played(rt, alloc, row);
    compares(rt, row, out.as_slice(), &behind);
}

/// What the two processes can do at first.
pub const LISTED: &[u8] =
    b"choice 1: proc 0 (A) line 2 [x = 1]\nchoice 2: proc 1 (B) line 3 [y = 2]\nchoose 1..2\n";

/// The same, and what they can do once the younger has moved.
pub const LISTED_AGAIN: &[u8] =
    b"choice 1: proc 0 (A) line 2 [x = 1]\nchoice 2: proc 1 (B) line 3 [y = 2]\nchoose 1..2\nstep 1: proc 1 (B) line 3 [y = 2]\nchoice 1: proc 0 (A) line 2 [x = 1]\nchoice 2: proc 1 (B) line 3 [-end-]\nchoose 1..2\n";

// The endless process is asked, and the choices end.
const ASKED: CodeRow = CodeRow {
    name: "asked",
    way: RowWay::Session,
    sample: ENDLESS,
    options: GLOBALS,
    choices: b"",
    failing: FailingCall::Never,
    out: b"choice 1: proc 0 (:init:) line 1 [x = 1]\nchoice 2: proc 0 (:init:) line 1 [x = 2]\nchoose 1..2\n",
    answers: 0,
    last: b"stop: choices ended, steps 0\n",
    rec: b"",
    read: 0,
    calls: 1,
    status: 5,
    steps: 0,
    cause: Cause::ChoicesEnded,
};

// The source fails at the first question.
const FIRST_FAILS: CodeRow = CodeRow {
    last: b"",
    status: 6,
    cause: Cause::SourceFailed,
    ..ASKED
};

// The source fails at the second question.
const SECOND_FAILS: CodeRow = CodeRow {
    out: LISTED_AGAIN,
    rec: b"2\n",
    status: 6,
    steps: 1,
    cause: Cause::SourceFailed,
    ..TWO_PROCESSES
};

// The choices of the row with bad lines, cut.
const CUT: CodeRow = CodeRow {
    name: "cut choices",
    last: b"stop: choices ended, steps 0\n",
    rec: b"",
    status: 5,
    steps: 0,
    cause: Cause::ChoicesEnded,
    ..BAD_LINES
};

// The choices of the row that quits, without the `q`.
const QUIT_AGAIN: CodeRow = CodeRow {
    last: b"stop: choices ended, steps 1\n",
    status: 5,
    cause: Cause::ChoicesEnded,
    ..QUIT
};

static ROWS: [CodeRow; 11] = [
    CodeRow {
        name: "the source fails at its first call",
        choices: b"1",
        failing: FailingCall::Source(0),
        ..FIRST_FAILS
    },
    CodeRow {
        name: "the source fails at its second call",
        choices: b"1",
        failing: FailingCall::Source(1),
        read: 1,
        calls: 2,
        ..FIRST_FAILS
    },
    CodeRow {
        name: "the source fails at its third call",
        failing: FailingCall::Source(2),
        read: 2,
        calls: 3,
        ..SECOND_FAILS
    },
    CodeRow {
        name: "the source fails at its fourth call",
        failing: FailingCall::Source(3),
        read: 3,
        calls: 4,
        ..SECOND_FAILS
    },
    CodeRow {
        name: "the record fails at once",
        failing: FailingCall::Record(0),
        out: LISTED,
        rec: b"",
        read: 2,
        calls: 2,
        status: 6,
        steps: 0,
        cause: Cause::RecordFailed,
        ..TWO_PROCESSES
    },
    CodeRow {
        name: "a run that quits, from the record",
        choices: b"1\n",
        read: 2,
        calls: 3,
        ..QUIT_AGAIN
    },
    CodeRow {
        name: "a run that quits, in the second version",
        choices: b"choices 2\n1 0 1\n",
        read: 16,
        calls: 17,
        ..QUIT_AGAIN
    },
    CodeRow {
        name: "a run that quits, converted twice",
        way: RowWay::Conversion,
        choices: b"choices 2\n1 0 1\n",
        out: b"choices 2\n1 0 1\n",
        last: b"",
        rec: b"",
        read: 16,
        calls: 17,
        ..QUIT_AGAIN
    },
    CodeRow {
        name: "a hundred line feeds",
        choices: &[b'\n'; 300],
        answers: 99,
        last: b"bad choice\nstop: 100 bad choices, steps 0\n",
        read: 100,
        calls: 100,
        cause: Cause::BadChoices,
        ..ASKED
    },
    CodeRow {
        name: "eighty-one bytes",
        choices: &[b'1'; 200],
        last: b"stop: line too long, steps 0\n",
        read: 81,
        calls: 81,
        cause: Cause::LineTooLong,
        ..ASKED
    },
    CodeRow {
        name: "a limit of no step",
        choices: b"1\n",
        options: Options {
            limit: 0,
            ..GLOBALS
        },
        out: b"stop: step limit, steps 0\n",
        last: b"",
        calls: 0,
        cause: Cause::StepLimit,
        ..ASKED
    },
];

static TABLES: [RowTable; 2] = [
    RowTable {
        row: CUT,
        choices: &[
            Choices {
                name: "no choices",
                choices: b"",
                answers: 0,
                read: 0,
                calls: 1,
            },
            Choices {
                name: "a zero",
                choices: b"0",
                answers: 1,
                read: 1,
                calls: 2,
            },
            Choices {
                name: "a zero line",
                choices: b"0\n",
                answers: 1,
                read: 2,
                calls: 3,
            },
            Choices {
                name: "a zero line and a three",
                choices: b"0\n3",
                answers: 2,
                read: 3,
                calls: 4,
            },
            Choices {
                name: "two bad lines",
                choices: b"0\n3\n",
                answers: 2,
                read: 4,
                calls: 5,
            },
            Choices {
                name: "two bad lines and a letter",
                choices: b"0\n3\nx",
                answers: 3,
                read: 5,
                calls: 6,
            },
            Choices {
                name: "three bad lines",
                choices: b"0\n3\nx\n",
                answers: 3,
                read: 6,
                calls: 7,
            },
            Choices {
                name: "four bad lines",
                choices: b"0\n3\nx\n\n",
                answers: 4,
                read: 7,
                calls: 8,
            },
        ],
    },
    RowTable {
        row: ASKED,
        choices: &[
            Choices {
                name: "a plus sign",
                choices: b"+1\n",
                answers: 1,
                read: 3,
                calls: 4,
            },
            Choices {
                name: "a full stop",
                choices: b"1.\n",
                answers: 1,
                read: 3,
                calls: 4,
            },
            Choices {
                name: "two numbers",
                choices: b"1 1\n",
                answers: 1,
                read: 4,
                calls: 5,
            },
            Choices {
                name: "a large Q",
                choices: b"Q\n",
                answers: 1,
                read: 2,
                calls: 3,
            },
            Choices {
                name: "two q",
                choices: b"qq\n",
                answers: 1,
                read: 3,
                calls: 4,
            },
            Choices {
                name: "a vertical tab",
                choices: b"\x0b1\n",
                answers: 1,
                read: 3,
                calls: 4,
            },
            Choices {
                name: "a form feed",
                choices: b"\x0c1\n",
                answers: 1,
                read: 3,
                calls: 4,
            },
            Choices {
                name: "a zero byte",
                choices: b"\x001\n",
                answers: 1,
                read: 3,
                calls: 4,
            },
            Choices {
                name: "a minus sign",
                choices: b"-1\n",
                answers: 1,
                read: 3,
                calls: 4,
            },
            Choices {
                name: "zero",
                choices: b"00\n",
                answers: 1,
                read: 3,
                calls: 4,
            },
            Choices {
                name: "a bad line without a line feed",
                choices: b"3",
                answers: 1,
                read: 1,
                calls: 2,
            },
            Choices {
                name: "2 ^ 64 + 1",
                choices: b"18446744073709551617\n",
                answers: 1,
                read: 21,
                calls: 22,
            },
            Choices {
                name: "eighty digits",
                choices: b"99999999999999999999999999999999999999999999999999999999999999999999999999999999\n",
                answers: 1,
                read: 81,
                calls: 82,
            },
        ],
    },
];

/// Plays a row on the choices of a table.
pub fn plays_all<R: Abort>(rt: &R, alloc: Global, table: &RowTable) {
    for choices in table.choices {
        plays(rt, alloc, &table.row.with(choices));
    }
}

#[test]
fn sessions(rt: HostRuntime) {
    for row in &ROWS {
        plays(&rt, rt.alloc(), row);
    }
    for table in &TABLES {
        plays_all(&rt, rt.alloc(), table);
    }
}

/// The sessions of `WHOLES`, on other choices.
#[test]
fn replays(rt: HostRuntime) {
    for row in &AGAIN {
        plays(&rt, rt.alloc(), row);
    }
}
