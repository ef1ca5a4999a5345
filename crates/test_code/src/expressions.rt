//! Places and types that no text gives.
use crate::compare::same;
use crate::parts;
use diagnostics::Fault;
use pml_eval::clip::clip;
use pml_eval::eval::place;
use pml_program::form::Form;
use pml_store::store::Store;
use pml_value::view::View;
use promela_process::place::Place;
use std::alloc::Global;
use std::process::Abort;

/// More bits than 32 are 32, and none keep nothing.
static WIDTHS: [(u32, i32, i32); 2] = [(40, -1, -1), (0, 5, 0)];

#[test]
fn widths_of_no_text(rt: HostRuntime) {
    for (bits, number, wanted) in &WIDTHS {
        let found = clip(Form::Unsigned(*bits), *number);
        same(&rt, "a width", "what is kept", found, *wanted);
    }
}

/// An element of an array of so many elements, from the cell `offset` on.
struct Element {
    name: &'static str,
    offset: u32,
    length: u32,
    index: i32,
    wanted: Result<Place, Fault>,
}

const THERE: Result<Place, Fault> = Ok(Place {
    frame: 1,
    variable: 2,
    cell: 2,
});

const OUT: Result<Place, Fault> = Err(Fault::IndexOutOfRange);

static ELEMENTS: [Element; 4] = [
    Element {
        name: "an element",
        offset: 0,
        length: 4,
        index: 2,
        wanted: THERE,
    },
    Element {
        name: "an element behind a cell",
        offset: 1,
        length: 4,
        index: 1,
        wanted: THERE,
    },
    Element {
        name: "an element beyond the cells",
        offset: 0,
        length: 9,
        index: 4,
        wanted: OUT,
    },
    Element {
        name: "an element beyond all numbers",
        offset: 4_294_967_295,
        length: 4,
        index: 3,
        wanted: OUT,
    },
];

fn is_there<R: Abort>(rt: &R, alloc: Global, view: &View<'_>, element: &Element) {
    let name = element.name;
    let target = parts::element(alloc, 2, element.offset, element.length, element.index);
    let found = place(&target.expect(rt, name), view);
    same(rt, name, "its place", found, element.wanted);
}

/// The place of an element, and of one beyond the cells that the variable has.
#[test]
fn places(rt: HostRuntime) {
    let mut store = Store::new(rt.alloc(), 4);
    store.push_frame(&[]).expect(&rt, "the globals");
    store.push_frame(&[0, 0, 4]).expect(&rt, "the locals");
    let view = parts::seen(&store, &[]);
    for element in &ELEMENTS {
        is_there(&rt, rt.alloc(), &view, element);
    }
}
