//! What a world answers once a growth was refused. Each test passes with memory enough, and where any one growth of it is refused.
use crate::models::kept_of;
use crate::run::Choices;
use std::alloc::Global;
use std::process::Abort;

/// The second move, or the only one there is.
const SECOND: Choices = Choices {
    first: 1,
    then: 1,
    most: 50,
};

/// Plays a model from its first state, as far as memory goes.
fn stops_for_good<R: Abort>(rt: &R, alloc: Global, model: &str) {
    let _kept = kept_of(rt, alloc, model, SECOND);
}

/// Messages, processes with channels of their own, printed texts and a step of many statements, and a fault at the end.
#[test]
fn messages_and_processes(rt: HostRuntime) {
    let model = r##"chan q = [2] of { byte, int }; byte x; int y;
proctype P(byte n) { chan c = [1] of { byte }; byte a[9]; c!n; q!!n, 7; printf("%d\n", n) }
init { run P(3); run P(2); d_step { x = 1; do :: x < 60 -> x++; y = y + x :: else -> break od; printf("%d of %d\n", x, y) }; (_nr_pr == 1); q?x,y; q?x,y; y = 1 / (x - 3) }
"##;
    stops_for_good(&rt, rt.alloc(), model)
}

/// A rendezvous between atomic sequences, with a choice.
#[test]
fn rendezvous(rt: HostRuntime) {
    let model = r##"chan q = [0] of { byte }; byte x, y;
active proctype A() { atomic { q!1; x = 2; printf("%d\n", y) } }
active proctype B() { atomic { q?y; y = 3 } }
active proctype C() { byte z; atomic { q?z; assert(z == 2) } }
"##;
    stops_for_good(&rt, rt.alloc(), model)
}
