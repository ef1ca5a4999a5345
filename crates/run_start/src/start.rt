//! The globals and the processes that a model begins with.

ghost use Rattle.std.specs.Prelude.{◌≡◌, ◌<◌, [], IfOk, OnOk, length};
ghost use Rattle.run_start.specs.Bound.{most_cells, IsWithin, IsBounded};
ghost use Rattle.promela_run.specs.State.{first_state, process_begun, sort_begun};
ghost use Rattle.run_start.specs.Starting.{Declares, Grows, Starts};

use crate::begin::begin_frame;
use crate::beginnings::Beginnings;
use crate::bound::most_cells;
use crate::started::Started;
use diagnostics::Stop;
use pml_program::program::Program;
use pml_store::store::Store;
use profile::MOST_PROCESSES;
use std::alloc::Global;

/// Adds a process of the proctype with this number.
fn add_process(
    alloc: Global,
    program: &Program<'_>,
    beginnings: &Beginnings<'_, '_>,
    sort: usize,
    started: &mut Started,
) -> Result<(), Stop>
    requires known { beginnings.now.typedefs ≡ program.now.typedefs }
    requires there { sort < length program.now.proctypes }
    requires declared { Declares program.now started.old }
    requires most { started.old.store.most ≡ most_cells program.now }
    ensures value { Grows program.now (process_begun program.now sort) started.old result started.new }
    ensures declared { OnOk result (Declares program.now started.new) }
    ensures most { started.new.store.most ≡ most_cells program.now }
{
    if started.sorts.len() >= MOST_PROCESSES {
        return Ok(());
    }
    started.sorts.push(sort).map_err(|_| Stop::Memory)?;
    let variables = program.proctypes.as_slice()[sort].variables.as_slice();
    begin_frame(alloc, beginnings, started, variables)
}

/// Begins a process of the proctype with this number, and forgets what was stored: a log of all processes takes twice the memory of
/// their cells.
fn begin_process(
    alloc: Global,
    program: &Program<'_>,
    beginnings: &Beginnings<'_, '_>,
    sort: usize,
    state: &mut Started,
) -> Result<(), Stop>
    requires known { beginnings.now.typedefs ≡ program.now.typedefs }
    requires there { sort < length program.now.proctypes }
    requires declared { Declares program.now state.old }
    requires most { state.old.store.most ≡ most_cells program.now }
    ensures value { Grows program.now (process_begun program.now sort) state.old result state.new }
    ensures declared { OnOk result (Declares program.now state.new) }
    ensures most { state.new.store.most ≡ most_cells program.now }
{
    add_process(alloc, program, beginnings, sort, state)?;
    state.store.forget();
    Ok(())
}

/// Begins the processes that a proctype starts with.
fn begin_processes(
    alloc: Global,
    program: &Program<'_>,
    beginnings: &Beginnings<'_, '_>,
    sort: usize,
    starts: u32,
    started: &mut Started,
) -> Result<(), Stop>
    requires known { beginnings.now.typedefs ≡ program.now.typedefs }
    requires there { sort < length program.now.proctypes }
    requires declared { Declares program.now started.old }
    requires most { started.old.store.most ≡ most_cells program.now }
    ensures value { Grows program.now (sort_begun program.now sort starts) started.old result started.new }
    ensures declared { OnOk result (Declares program.now started.new) }
    ensures most { started.new.store.most ≡ most_cells program.now }
{
    for _start in 0..starts {
        begin_process(alloc, program, beginnings, sort, started)?;
    }
    Ok(())
}

/// The first state of a checked model, by what its typedefs begin with.
pub fn start_by(
    alloc: Global,
    program: &Program<'_>,
    beginnings: &Beginnings<'_, '_>,
) -> Result<Started, Stop>
    requires within { IsWithin program.now }
    requires known { beginnings.now.typedefs ≡ program.now.typedefs }
    ensures value { Starts program.now (first_state program.now) result }
    ensures forgotten { IfOk result (λ s. s.store.written ≡ []) }
    ensures declared { IfOk result (Declares program.now) }
    ensures bounded { IfOk result (λ s. IsBounded program.now s.store s.channels.items) }
{
    let mut started = Started {
        store: Store::new(alloc, most_cells(program)),
        channels: Vec::new(alloc),
        sorts: Vec::new(alloc),
    };
    begin_frame(alloc, beginnings, &mut started, program.globals.as_slice())?;
    let processes = program.proctypes.as_slice();
    for sort in 0..processes.len() {
        let starts = processes[sort].starts;
        begin_processes(alloc, program, beginnings, sort, starts, &mut started)?;
    }
    started.store.forget();
    Ok(started)
}

/// The first state of a checked model.
pub fn start(alloc: Global, program: &Program<'_>) -> Result<Started, Stop>
    requires within { IsWithin program.now }
    ensures value { Starts program.now (first_state program.now) result }
    ensures forgotten { IfOk result (λ s. s.store.written ≡ []) }
    ensures declared { IfOk result (Declares program.now) }
    ensures bounded { IfOk result (λ s. IsBounded program.now s.store s.channels.items) }
{
    match Beginnings::new(alloc, program) {
        Ok(beginnings) => start_by(alloc, program, &beginnings),
        Err(_) => Err(Stop::Memory),
    }
}
