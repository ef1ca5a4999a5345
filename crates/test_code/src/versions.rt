//! Choices of the second version.
use crate::row::{Choices, CodeRow, RowTable};
use crate::sessions::{LISTED, LISTED_AGAIN, plays, plays_all};
use crate::wholes::TWO_PROCESSES;
use session::Cause;

// The choices end at the first question.
const ENDS: CodeRow = CodeRow {
    out: LISTED,
    last: b"stop: choices ended, steps 0\n",
    rec: b"",
    status: 5,
    steps: 0,
    cause: Cause::ChoicesEnded,
    ..TWO_PROCESSES
};

// The first choice is of other moves.
const MISFIT: CodeRow = CodeRow {
    last: b"stop: choice misfit, steps 0\n",
    cause: Cause::Misfit,
    ..ENDS
};

static ROWS: [CodeRow; 3] = [
    CodeRow {
        name: "a first line at the second question",
        choices: b"2\nchoices 2\n1 0 2\n",
        out: LISTED_AGAIN,
        answers: 2,
        last: b"stop: choices ended, steps 1\n",
        rec: b"2\n",
        read: 18,
        calls: 19,
        steps: 1,
        ..ENDS
    },
    CodeRow {
        name: "q in the second version",
        choices: b"choices 2\n q\n1\n",
        last: b"end: quit, steps 0\n",
        read: 13,
        calls: 13,
        status: 0,
        cause: Cause::Quit,
        ..ENDS
    },
    CodeRow {
        name: "a line too long in the second version",
        choices: b"choices 2\n                                                                                          ",
        last: b"stop: line too long, steps 0\n",
        read: 91,
        calls: 91,
        cause: Cause::LineTooLong,
        ..ENDS
    },
];

static TABLES: [RowTable; 2] = [
    RowTable {
        row: MISFIT,
        choices: &[
            Choices {
                name: "a misfit: another line",
                choices: b"choices 2\n2 1 4\n",
                answers: 0,
                read: 16,
                calls: 16,
            },
            Choices {
                name: "a misfit: another process",
                choices: b"choices 2\n2 0 3\n1\n",
                answers: 0,
                read: 16,
                calls: 16,
            },
            Choices {
                name: "a misfit: another number",
                choices: b"choices 2\n1 1 3\n",
                answers: 0,
                read: 16,
                calls: 16,
            },
            Choices {
                name: "a misfit: a number alone",
                choices: b"choices 2\n2\n1\n",
                answers: 0,
                read: 12,
                calls: 12,
            },
            Choices {
                name: "a misfit: two numbers",
                choices: b"choices 2\n2 1\n1\n",
                answers: 0,
                read: 14,
                calls: 14,
            },
            Choices {
                name: "a misfit: an empty line",
                choices: b"choices 2\n\n",
                answers: 0,
                read: 11,
                calls: 11,
            },
            Choices {
                name: "a misfit: the first line twice",
                choices: b"choices 2\nchoices 2\n",
                answers: 0,
                read: 20,
                calls: 20,
            },
            Choices {
                name: "a misfit: the number 0",
                choices: b"choices 2\n0 1 3\n",
                answers: 0,
                read: 16,
                calls: 16,
            },
            Choices {
                name: "a misfit: a number too large",
                choices: b"choices 2\n3 1 3\n",
                answers: 0,
                read: 16,
                calls: 16,
            },
            Choices {
                name: "a misfit: four numbers",
                choices: b"choices 2\n2 1 3 4\n",
                answers: 0,
                read: 18,
                calls: 18,
            },
            Choices {
                name: "a misfit: a carriage return between numbers",
                choices: b"choices 2\n2 1\r3\n",
                answers: 0,
                read: 16,
                calls: 16,
            },
            Choices {
                name: "a misfit: a plus sign",
                choices: b"choices 2\n+2 1 3",
                answers: 0,
                read: 16,
                calls: 17,
            },
            Choices {
                name: "a misfit: 2 ^ 32 + 1",
                choices: b"choices 2\n2 4294967297 3\n",
                answers: 0,
                read: 25,
                calls: 25,
            },
        ],
    },
    RowTable {
        row: ENDS,
        choices: &[
            Choices {
                name: "choices that end behind the first line",
                choices: b"choices 2\n",
                answers: 0,
                read: 10,
                calls: 11,
            },
            Choices {
                name: "a first line without a line feed",
                choices: b"choices 2",
                answers: 0,
                read: 9,
                calls: 10,
            },
            Choices {
                name: "blanks about the first line",
                choices: b"  choices 2 ",
                answers: 0,
                read: 12,
                calls: 13,
            },
            Choices {
                name: "two blanks in the first line",
                choices: b"choices  2\n",
                answers: 1,
                read: 11,
                calls: 12,
            },
            Choices {
                name: "a capital in the first line",
                choices: b"Choices 2\n",
                answers: 1,
                read: 10,
                calls: 11,
            },
            Choices {
                name: "another version",
                choices: b"choices 22\n",
                answers: 1,
                read: 11,
                calls: 12,
            },
            Choices {
                name: "a full stop behind the version",
                choices: b"choices 2 .\n",
                answers: 1,
                read: 12,
                calls: 13,
            },
            Choices {
                name: "a form feed before the first line",
                choices: b"\x0cchoices 2\n",
                answers: 1,
                read: 11,
                calls: 12,
            },
            Choices {
                name: "a bad line before the first line",
                choices: b"x\nchoices 2\n",
                answers: 2,
                read: 12,
                calls: 13,
            },
        ],
    },
];

#[test]
fn sessions_of_the_second_version(rt: HostRuntime) {
    for row in &ROWS {
        plays(&rt, rt.alloc(), row);
    }
    for table in &TABLES {
        plays_all(&rt, rt.alloc(), table);
    }
}
