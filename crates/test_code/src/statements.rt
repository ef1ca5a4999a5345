//! What statements do that no text has: to variables that no text declares, and to none.
use crate::compare::same;
use crate::parts::{self, all, quotient};
use diagnostics::{Fault, Stop};
use pml_program::expr::{Expr, Target};
use pml_program::program::Action;
use pml_store::store::Store;
use pml_value::statement::outcome;
use pml_value::view::View;
use sqlite_items::Items;
use std::alloc::{AllocError, Global};
use std::process::Abort;

/// What is done.
#[derive(Clone, Copy)]
enum Doing {
    /// 300 is assigned to the element.
    Assign,
    Increment,
    Decrement,
    /// 7 is stored to `_`.
    Discard,
    /// The condition `1 / 0` is taken.
    Divide,
}

/// A statement of a process on an element of a local variable of bytes, said to have nine; and the cells behind it.
struct Row {
    name: &'static str,
    pid: u8,
    doing: Doing,
    variable: usize,
    index: i32,
    wanted: Result<(), Stop>,
    cells: [i32; 5],
}

const OUT: Result<(), Stop> = Err(Stop::Fault(Fault::IndexOutOfRange));

/// Assigns 300 to a local of process 1, counts it down, and leaves it as it is.
static ROWS: [Row; 8] = [
    Row {
        name: "an assignment",
        pid: 1,
        doing: Doing::Assign,
        variable: 1,
        index: 2,
        wanted: Ok(()),
        cells: [0, 0, 0, 0, 44],
    },
    Row {
        name: "an assignment beyond the cells",
        pid: 1,
        doing: Doing::Assign,
        variable: 1,
        index: 3,
        wanted: OUT,
        cells: [0, 0, 0, 0, 44],
    },
    Row {
        name: "a variable that is not there",
        pid: 1,
        doing: Doing::Increment,
        variable: 2,
        index: 0,
        wanted: OUT,
        cells: [0, 0, 0, 0, 44],
    },
    Row {
        name: "a process without variables",
        pid: 0,
        doing: Doing::Assign,
        variable: 1,
        index: 2,
        wanted: OUT,
        cells: [0, 0, 0, 0, 44],
    },
    Row {
        name: "a process that is not there",
        pid: 255,
        doing: Doing::Assign,
        variable: 1,
        index: 2,
        wanted: OUT,
        cells: [0, 0, 0, 0, 44],
    },
    Row {
        name: "a decrement",
        pid: 1,
        doing: Doing::Decrement,
        variable: 1,
        index: 2,
        wanted: Ok(()),
        cells: [0, 0, 0, 0, 43],
    },
    Row {
        name: "a store to _",
        pid: 0,
        doing: Doing::Discard,
        variable: 0,
        index: 0,
        wanted: Ok(()),
        cells: [0, 0, 0, 0, 43],
    },
    Row {
        name: "a condition that is a fault",
        pid: 0,
        doing: Doing::Divide,
        variable: 0,
        index: 0,
        wanted: Err(Stop::Fault(Fault::ZeroDivisor)),
        cells: [0, 0, 0, 0, 43],
    },
];

fn action(doing: Doing, element: Target) -> Action<'static> {
    match doing {
        Doing::Increment => Action::Increment(element),
        Doing::Decrement => Action::Decrement(element),
        _ => Action::Assign(Some(element), Expr::Number(300)),
    }
}

fn on_element(alloc: Global, row: &Row) -> Result<Items<Action<'static>>, AllocError> {
    let element = parts::element(alloc, row.variable, 0, 9, row.index)?;
    all(alloc, [action(row.doing, element)])
}

fn division(alloc: Global) -> Result<Items<Action<'static>>, AllocError> {
    all(alloc, [Action::Holds(quotient(alloc)?)])
}

/// The statement of a row.
fn statement(alloc: Global, row: &Row) -> Result<Items<Action<'static>>, AllocError> {
    match row.doing {
        Doing::Discard => all(alloc, [Action::Assign(None, Expr::Number(7))]),
        Doing::Divide => division(alloc),
        _ => on_element(alloc, row),
    }
}

fn does<R: Abort>(rt: &R, store: &mut Store, row: &Row, action: &Action<'_>) {
    let goes = outcome(action, &View::new(&*store, &[], row.pid, 2, false));
    let taken = parts::taken(store, goes);
    same(rt, row.name, "is taken", taken, row.wanted);
    let cells = store.cells().as_slice();
    same(rt, row.name, "the cells", cells, row.cells.as_slice());
}

fn plays<R: Abort>(rt: &R, alloc: Global, store: &mut Store, row: &Row) {
    let actions = statement(alloc, row).expect(rt, row.name);
    let action = actions.get(0).expect(rt, row.name);
    does(rt, store, row, action);
}

#[test]
fn statements(rt: HostRuntime) {
    let mut store = Store::new(rt.alloc(), 5);
    store.push_frame(&[1]).expect(&rt, "the globals");
    store.push_frame(&[]).expect(&rt, "process 0");
    store.push_frame(&[1, 3]).expect(&rt, "process 1");
    for row in &ROWS {
        plays(&rt, rt.alloc(), &mut store, row);
    }
}
