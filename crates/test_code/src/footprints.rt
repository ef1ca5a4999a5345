//! How much a world keeps: the numbers in variables and messages, two for each process and two for each channel.
use crate::compare::same;
use crate::models::kept_of;
use crate::run::Choices;
use std::alloc::Global;
use std::process::Abort;

/// Numbers of which each is so much more than the one before it, as far as the most.
#[derive(Clone, Copy)]
struct Rising {
    first: usize,
    step: usize,
    most: usize,
    count: usize,
}

/// How much is kept at the start and after each step, as far as the run goes.
#[derive(Clone, Copy)]
enum Kept {
    Listed(&'static [usize]),
    Rising(Rising),
}

/// A model and its choices.
struct Row {
    name: &'static str,
    model: &'static str,
    choices: Choices,
    kept: Kept,
}

/// The first move is taken each time.
const FIRST: Choices = Choices {
    first: 0,
    then: 0,
    most: 300,
};

/// The second move is taken, or the only one there is, and then the first one each time.
const SECOND: Choices = Choices {
    first: 1,
    then: 0,
    most: 300,
};

static ROWS: [Row; 27] = [
    // Processes come and go with a cell and a channel each, and nothing of them stays behind; the last step is a fault.
    Row {
        name: "processes",
        model: r##"chan g;
proctype P() { chan c = [1] of { byte }; g = c }
init { run P(); (_nr_pr == 1); run P(); (_nr_pr == 1); g!1 }
"##,
        choices: FIRST,
        kept: Kept::Listed(&[3, 8, 8, 3, 3, 8, 8, 3, 3]),
    },
    // Each message of two fields is two numbers, until it is received.
    Row {
        name: "messages",
        model: r##"chan q = [4] of { byte, byte }; byte x;
init { q!!3,1; q!!1,9; q!!2,5; q!!1,4; q??2,x; q??1,x; q?1,x; q?3(x) }
"##,
        choices: FIRST,
        kept: Kept::Listed(&[6, 8, 10, 12, 14, 12, 10, 8, 6, 4]),
    },
    // A message that stays is still counted, and one in a poll is not.
    Row {
        name: "messages that stay",
        model: r##"chan q = [2] of { byte, mtype };
mtype = { a, b };
byte x; mtype m;
init { q!257(b); q!3,a; q?<x,m>; (q??[3,a] && full(q)); q??eval(x + 2),m; x = len(q); q?x,eval(b) }
"##,
        choices: FIRST,
        kept: Kept::Listed(&[7, 9, 11, 11, 11, 9, 9, 7, 5]),
    },
    // A rendezvous keeps no message.
    Row {
        name: "rendezvous",
        model: r##"chan q = [0] of { byte }; byte x, y;
active proctype A() { atomic { q!1; x = 2 } }
active proctype B() { atomic { q?y; y = 3 } }
"##,
        choices: FIRST,
        kept: Kept::Listed(&[9, 9, 9, 9, 7, 5]),
    },
    Row {
        name: "a rendezvous of a local",
        model: "chan q = [0] of { byte }; active proctype S() { q!257 } active proctype R() { byte y; q?y }",
        choices: FIRST,
        kept: Kept::Listed(&[8, 8, 5, 3]),
    },
    // The log of a step is not counted, nor what is asked and printed.
    Row {
        name: "fields",
        model: r##"typedef R { byte f[2]; short g };
mtype = { ack, nak };
R r[2];
mtype m;
unsigned u : 3;
int i = 2147483647;
init { byte k = 1; r[k].f[1] = 300; m = nak; u = 9; i++; k = r[1].f[1] >> 2; r[0].g = -40000; u = 9 / (k - 11) }
"##,
        choices: FIRST,
        kept: Kept::Listed(&[12, 12, 12, 12, 12, 12, 12]),
    },
    Row {
        name: "a loop in one step",
        model: "int i; init { d_step { i = 0; do :: i < 4999 -> i++ :: else -> break od } }",
        choices: FIRST,
        kept: Kept::Listed(&[3, 3, 1]),
    },
    Row {
        name: "a printed text",
        model: r##"byte x; init { if :: d_step { printf("hi\n"); x = 1 / x } :: skip fi }"##,
        choices: SECOND,
        kept: Kept::Listed(&[3, 3, 1]),
    },
    Row {
        name: "a printed text before a fault",
        model: r##"byte x; init { if :: d_step { printf("hi\n"); x = 1 / x } :: skip fi }"##,
        choices: FIRST,
        kept: Kept::Listed(&[3]),
    },
    Row {
        name: "numbers that wrap",
        model: "byte x = 255; short y = 32767; init { x++; y++ }",
        choices: FIRST,
        kept: Kept::Listed(&[4, 4, 4, 2]),
    },
    // The youngest process takes its own cells along, and no others.
    Row {
        name: "two processes",
        model: r##"byte x, y;
active proctype A() { x = 1 }
active proctype B() { y = 2 }
"##,
        choices: SECOND,
        kept: Kept::Listed(&[6, 6, 6, 4, 2]),
    },
    // A process that cannot be created leaves nothing behind: 25 have 250 channels, and the next is one too many.
    Row {
        name: "too many channels",
        model: "proctype P() { chan c[10] = [1] of { byte }; end: false } init { do :: run P() od }",
        choices: FIRST,
        kept: Kept::Rising(Rising {
            first: 2,
            step: 32,
            most: 802,
            count: 26,
        }),
    },
    // 255 processes live, and no more are made.
    Row {
        name: "too many processes",
        model: "proctype P() { end: false } init { do :: run P() :: timeout -> break od }",
        choices: FIRST,
        kept: Kept::Rising(Rising {
            first: 2,
            step: 2,
            most: 510,
            count: 256,
        }),
    },
    // Selections, gotos and printed texts keep what was there, up to the end or the fault.
    Row {
        name: "an empty statement",
        model: "init { skip }",
        choices: FIRST,
        kept: Kept::Listed(&[2, 2, 0]),
    },
    Row {
        name: "a selection",
        model: "byte x; init { if :: x = 1 :: x = 2 fi }",
        choices: SECOND,
        kept: Kept::Listed(&[3, 3, 1]),
    },
    Row {
        name: "escapes in escapes",
        model: "byte x; init { { { x = 1 } unless { x = 2 } } unless { x = 3 } }",
        choices: FIRST,
        kept: Kept::Listed(&[3, 3, 1]),
    },
    Row {
        name: "printed numbers",
        model: r##"mtype = { ack, nak }; init { printf("%e %d%% %x\n", nak, ack, -1); printm(7) }"##,
        choices: FIRST,
        kept: Kept::Listed(&[2, 2, 2, 0]),
    },
    Row {
        name: "an index outside",
        model: "byte a[2]; byte i = 2; init { if :: a[i] == 0 :: skip fi }",
        choices: FIRST,
        kept: Kept::Listed(&[5]),
    },
    Row {
        name: "a goto out of a loop",
        model: "byte x; init { do :: goto L od; L: x = 1 }",
        choices: FIRST,
        kept: Kept::Listed(&[3, 3, 3, 1]),
    },
    Row {
        name: "a goto",
        model: "init { skip; goto L; L: skip }",
        choices: FIRST,
        kept: Kept::Listed(&[2, 2, 2, 0]),
    },
    // Control that goes from one process to another keeps nothing, and a process that waits keeps what it has.
    Row {
        name: "an else beside a rendezvous",
        model: r##"chan q = [0] of { byte };
active proctype S() { q!1 }
active proctype R() { byte x; if :: q?x :: else fi }
"##,
        choices: SECOND,
        kept: Kept::Listed(&[8, 8, 5]),
    },
    Row {
        name: "escapes in two processes",
        model: r##"chan a = [0] of { byte }; chan b = [0] of { byte };
active proctype P() { { a!1 } unless { b?_ } }
active proctype Q() { { b!1 } unless { a?_ } }
"##,
        choices: SECOND,
        kept: Kept::Listed(&[10, 10, 8, 6]),
    },
    Row {
        name: "an atomic sequence that waits",
        model: r##"byte x;
active proctype A() { atomic { x = 1; (x == 2); x = 3 } }
active proctype B() { x = 2 }
"##,
        choices: FIRST,
        kept: Kept::Listed(&[5, 5, 5, 5, 5, 3, 1]),
    },
    Row {
        name: "an end",
        model: "chan q = [1] of { byte }; byte x; init { end: do :: q?x od }",
        choices: FIRST,
        kept: Kept::Listed(&[6]),
    },
    Row {
        name: "no end",
        model: "chan q = [1] of { byte }; byte x; init { do :: q?x od }",
        choices: FIRST,
        kept: Kept::Listed(&[6]),
    },
    // A loop keeps the same, however often it turns.
    Row {
        name: "a loop",
        model: "byte x; init { do :: x = 1 :: x = 2 od }",
        choices: FIRST,
        kept: Kept::Rising(Rising {
            first: 3,
            step: 0,
            most: 3,
            count: 301,
        }),
    },
    Row {
        name: "a quiet loop",
        model: "init { do :: skip od }",
        choices: FIRST,
        kept: Kept::Rising(Rising {
            first: 2,
            step: 0,
            most: 2,
            count: 301,
        }),
    },
];

fn rises<R: Abort>(rt: &R, name: &str, rising: Rising, found: &[usize]) {
    same(rt, name, "how many", found.len(), rising.count);
    let mut wanted = rising.first;
    for kept in found {
        same(rt, name, "kept", *kept, wanted);
        wanted = wanted.saturating_add(rising.step).min(rising.most);
    }
}

fn keeps<R: Abort>(rt: &R, alloc: Global, row: &Row) {
    let found = kept_of(rt, alloc, row.model, row.choices);
    match row.kept {
        Kept::Listed(kept) => same(rt, row.name, "kept", found.as_slice(), kept),
        Kept::Rising(rising) => rises(rt, row.name, rising, found.as_slice()),
    }
}

#[test]
fn footprints(rt: HostRuntime) {
    for row in &ROWS {
        keeps(&rt, rt.alloc(), row);
    }
}
