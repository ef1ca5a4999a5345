//! What variables and channels hold: in the first state of a model, or beside one global where a process of its proctype with the number
//! `proctype` is created with these `arguments`.
//!
//! A state is its numbers, its channels and its processes, with ` / ` between them, or a dash for none. Ten numbers and more that are the same
//! are `NUMBERxCOUNT`. A channel is its frame and its capacity, a process the number of its proctype.
ghost use Rattle.std.specs.Prelude.{◌≡◌, IfSome};
ghost use Rattle.run_start.specs.Bound.{cells_of};

use crate::doing::add_done;
use crate::layer::ModelView;
use crate::numbers::{cells, number};
use diagnostics::Stop;
use pml_program::program::{Program, Slot};
use pml_store::store::Store;
use promela_run::live_channel::LiveChannel;
use row_files::{RowBlock, RowWriter};
use run_layout::cells::size;
use run_start::Beginnings;
use run_start::create::create;
use run_start::started::Started;
use std::alloc::{AllocError, Global};

/// So many numbers in a row are written with their count.
const MANY: usize = 10;

/// Writes a number so many times.
fn add_run(out: &mut RowWriter, number: i32, count: usize) {
    if count >= MANY {
        out.space();
        out.signed(number);
        out.word("x");
        out.number(count);
        return;
    }
    for _ in 0..count {
        out.space();
        out.signed(number);
    }
}

/// Writes numbers, or a dash.
pub fn add_numbers(out: &mut RowWriter, numbers: &[i32]) {
    let mut last = 0;
    let mut count = 0usize;
    for number in numbers {
        if *number != last {
            add_run(out, last, count);
            count = 0;
        }
        last = *number;
        count = count.saturating_add(1);
    }
    add_run(out, last, count);
    add_dash(out, numbers.is_empty());
}

/// Writes a dash where there is nothing else.
pub fn add_dash(out: &mut RowWriter, is_empty: bool) {
    if is_empty {
        out.space();
        out.word("-");
    }
}

fn add_channels(out: &mut RowWriter, channels: &[LiveChannel]) {
    for live in channels {
        out.space();
        out.number(live.frame);
        out.word(":");
        out.count(u32::from(live.channel.capacity()));
    }
    add_dash(out, channels.is_empty());
}

fn add_processes(out: &mut RowWriter, sorts: &[usize]) {
    for kind in sorts {
        out.space();
        out.number(*kind);
    }
    add_dash(out, sorts.is_empty());
}

/// How many cells variables have, as far as a `u32` counts them.
fn cells_of(slots: &[Slot<'_>]) -> Option<u32>
    ensures { IfSome result (λ n. n ≡ cells_of slots.now) }
{
    let mut cells: u32 = 0;
    for slot in slots {
        let more = u32::try_from(size(slot)).ok()?;
        cells = cells.checked_add(more)?;
    }
    Some(cells)
}

/// Writes a state.
fn add_state(out: &mut RowWriter, store: &Store, channels: &[LiveChannel], sorts: &[usize]) {
    add_numbers(out, store.cells().as_slice());
    out.word(" / ");
    add_channels(out, channels);
    out.word(" / ");
    add_processes(out, sorts);
}

/// Writes `ok`, or the fault.
pub fn add_outcome(ended: Result<(), Stop>, out: &mut RowWriter) {
    match ended {
        Ok(()) => out.word("ok"),
        Err(stop) => add_stop(stop, out),
    }
}

/// Writes the fault that a stop is, as `F2`.
pub fn add_stop(stop: Stop, out: &mut RowWriter) {
    match stop {
        Stop::Fault(fault) => {
            out.word("F");
            out.count(u32::from(fault.number()));
        }
        Stop::Memory => out.no_memory(),
    }
}

/// Writes what there is once a process with these variables is created beside a global, and how that went.
fn add_created(
    alloc: Global,
    beginnings: &Beginnings<'_, '_>,
    kind: usize,
    slots: &[Slot<'_>],
    arguments: &[i32],
    out: &mut RowWriter,
) {
    let Some(most) = cells_of(slots).and_then(|cells| cells.checked_add(1)) else {
        return out.refuse("too many cells");
    };
    let mut started = Started {
        store: Store::new(alloc, most),
        channels: Vec::new(alloc),
        sorts: Vec::new(alloc),
    };
    if started.store.push_frame(&[1]).is_err() {
        return out.no_memory();
    }
    let ended = create(beginnings, kind, slots, arguments, &mut started);
    add_outcome(ended, out);
    out.word(" / ");
    add_state(
        out,
        &started.store,
        started.channels.as_slice(),
        started.sorts.as_slice(),
    );
}

fn add_process(
    alloc: Global,
    program: &Program<'_>,
    kind: usize,
    slots: &[Slot<'_>],
    arguments: &[i32],
    out: &mut RowWriter,
) {
    match Beginnings::new(alloc, program) {
        Ok(beginnings) => add_created(alloc, &beginnings, kind, slots, arguments, out),
        Err(AllocError) => out.no_memory(),
    }
}

/// The variables of the proctype with this number.
fn variables<'p, 'a>(program: &'p Program<'a>, kind: usize) -> Option<&'p [Slot<'a>]> {
    match program.proctypes.as_slice().get(kind) {
        Some(proctype) => Some(proctype.variables.as_slice()),
        None => None,
    }
}

/// Writes what there is once a process is created beside a global, as a block asks it, and how that went.
pub fn add_creation(alloc: Global, block: RowBlock, program: &Program<'_>, out: &mut RowWriter) {
    let kind = block
        .behind("proctype")
        .unwrap_or("0")
        .parse()
        .unwrap_or(usize::MAX);
    let arguments = cells(alloc, block.part("arguments"), out);
    match variables(program, kind) {
        Some(slots) => add_process(alloc, program, kind, slots, arguments, out),
        None => out.refuse("no such proctype"),
    }
}

/// Writes the values of a model, from its first state on.
pub fn add_values(
    alloc: Global,
    view: ModelView,
    block: RowBlock,
    program: &Program<'_>,
    started: Started,
    out: &mut RowWriter,
) {
    let mut started = started;
    match view {
        ModelView::FirstState => {
            let Started {
                store,
                channels,
                sorts,
            } = &started;
            add_state(out, store, channels.as_slice(), sorts.as_slice());
        }
        _ => add_done(alloc, view, block, program, &mut started, out),
    }
}
