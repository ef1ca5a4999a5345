//! The numbers of variables, by place.
use crate::compare::same;
use pml_store::store::Store;
use promela_process::place::Place;
use std::process::Abort;

const NAME: &str = "frames";

/// A global of two cells.
const GLOBAL: Place = Place {
    frame: 0,
    variable: 0,
    cell: 1,
};

/// The cells, and what was written since they were forgotten.
fn holds<R: Abort>(rt: &R, store: &Store, cells: &[i32], written: &[(u32, i32)]) {
    same(rt, NAME, "the cells", store.cells().as_slice(), cells);
    same(rt, NAME, "what is written", store.written(), written);
}

fn has_sizes<R: Abort>(rt: &R, store: &Store) {
    same(rt, NAME, "a global's size", store.size(0, 1), 1);
    same(rt, NAME, "a local's size", store.size(1, 0), 2);
    same(rt, NAME, "no variable's size", store.size(2, 0), 0);
}

/// Globals of two cells and one, and a process of one variable of two cells.
#[test]
fn frames_come_and_go(rt: HostRuntime) {
    let mut store = Store::new(rt.alloc(), 5);
    store.push_frame(&[2, 1]).expect(&rt, NAME);
    store.set(GLOBAL, -7).expect(&rt, NAME);
    same(&rt, NAME, "a number", store.get(GLOBAL), -7);
    holds(&rt, &store, &[0, -7, 0], &[(1, 0)]);
    store.forget();
    store.push_frame(&[2]).expect(&rt, NAME);
    holds(&rt, &store, &[0, -7, 0, 0, 0], &[]);
    has_sizes(&rt, &store);
    store.pop_frame();
    holds(&rt, &store, &[0, -7, 0], &[]);
}
