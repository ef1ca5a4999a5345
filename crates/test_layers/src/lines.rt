//! The lines of the places whose numbers changed: from the cells `before` to those `after`, each in the order of their places, or in the
//! log of a store with these `writes`, each a line `FRAME VARIABLE CELL => NUMBER`. The `processes` are known by the numbers of their
//! proctypes.
use crate::layer::LinesView;
use crate::numbers::{cells, indices, number};
use pml_program::program::Program;
use pml_store::store::Store;
use promela_process::place::Place;
use row_files::{Pair, RowBlock, RowWriter, pairs};
use run_layout::tables::Tables;
use run_values::change::{Wanted, logged_lines, value_lines};
use std::alloc::{AllocError, Global};

const ALL: Wanted = Wanted {
    globals: true,
    locals: true,
};

const LOCALS: Wanted = Wanted {
    globals: false,
    locals: true,
};

/// The lines of the places whose numbers differ.
fn changes(
    alloc: Global,
    tables: &Tables<'_, '_>,
    kinds: &[usize],
    wanted: Wanted,
    block: RowBlock,
    out: &mut RowWriter,
) -> Vec<u8> {
    let before = cells(alloc, block.part("before"), out);
    let after = cells(alloc, block.part("after"), out);
    let mut lines = Vec::new(alloc);
    if value_lines(tables, kinds, wanted, before, after, &mut lines).is_err() {
        out.no_memory();
    }
    lines
}

/// The store that writes go to: of the globals and of two processes, each with so many cells for each of its variables.
fn first_store(alloc: Global) -> Result<Store, AllocError> {
    let mut store = Store::new(alloc, 11);
    store.push_frame(&[6, 1, 1])?;
    store.push_frame(&[1, 1])?;
    store.push_frame(&[1])?;
    Ok(store)
}

/// The place with these numbers, of its frame, its variable and its cell.
fn place_of(numbers: &[usize]) -> Option<Place> {
    match numbers {
        [frame, variable, cell] => Some(Place {
            frame: *frame,
            variable: *variable,
            cell: *cell,
        }),
        _ => None,
    }
}

/// Stores the number of a line `FRAME VARIABLE CELL => NUMBER` at its place.
fn write(alloc: Global, store: &mut Store, line: Pair, out: &mut RowWriter) {
    let number = number(line.that, out);
    match place_of(indices(alloc, line.this, out)) {
        Some(place) if place.cell < store.size(place.frame, place.variable) => if store
            .set(place, number)
            .is_err()
        {
            out.no_memory();
        },
        _ => out.refuse("a place that is not there"),
    }
}

/// Stores the numbers of these lines.
fn write_lines(alloc: Global, store: &mut Store, lines: &[Pair], out: &mut RowWriter) {
    for line in lines {
        write(alloc, store, *line, out);
    }
}

/// Stores the numbers of the part `writes`.
pub fn write_all(alloc: Global, block: RowBlock, store: &mut Store, out: &mut RowWriter) {
    match pairs(alloc, block.part("writes")) {
        Ok(lines) => write_lines(alloc, store, lines, out),
        Err(AllocError) => out.no_memory(),
    }
}

/// The lines of the places that are written in a store.
fn logged(
    alloc: Global,
    tables: &Tables<'_, '_>,
    kinds: &[usize],
    store: &Store,
    out: &mut RowWriter,
) -> Vec<u8> {
    let mut lines = Vec::new(alloc);
    if logged_lines(alloc, tables, kinds, ALL, store, &mut lines).is_err() {
        out.no_memory();
    }
    lines
}

/// The lines of the places that writes changed.
fn writes(
    alloc: Global,
    tables: &Tables<'_, '_>,
    kinds: &[usize],
    block: RowBlock,
    out: &mut RowWriter,
) -> Vec<u8> {
    match first_store(alloc) {
        Ok(mut store) => {
            write_all(alloc, block, &mut store, out);
            logged(alloc, tables, kinds, &store, out)
        }
        Err(AllocError) => {
            out.no_memory();
            Vec::new(alloc)
        }
    }
}

fn add_known(
    alloc: Global,
    tables: &Tables<'_, '_>,
    view: LinesView,
    block: RowBlock,
    out: &mut RowWriter,
) {
    let kinds = indices(alloc, block.part("processes"), out);
    let lines = match view {
        LinesView::Cells => changes(alloc, tables, kinds, ALL, block, out),
        LinesView::Locals => changes(alloc, tables, kinds, LOCALS, block, out),
        LinesView::Writes => writes(alloc, tables, kinds, block, out),
    };
    out.bytes(lines.as_slice());
}

/// Writes the lines of a model.
pub fn add_lines(
    alloc: Global,
    view: LinesView,
    block: RowBlock,
    program: &Program<'_>,
    out: &mut RowWriter,
) {
    match Tables::new(alloc, program) {
        Ok(tables) => add_known(alloc, &tables, view, block, out),
        Err(AllocError) => out.no_memory(),
    }
}
