//! Who wrote the variables last that a condition reads.

ghost use Rattle.view_text.specs.Written.{Stays};

use pml_program::program::{Action, Basic};
use pml_value::view::View;
use promela_process::place::Place;
use promela_run::moves::Pick;
use run_search::picked::picked;
use run_state::live::Live;
use std::alloc::{AllocError, Global};
use view_cells::cells::{add_path, add_value, form_at};
use view_cells::processes::{add_name, add_process};
use view_text::writer::Writer;
use view_waits::because::Because;
use view_waits::reads::{ReadValue, Reads, add_reads};
use view_waits::waits::Wait;

/// A step that wrote a cell, the process that took it, and the number that it left there.
#[derive(Clone, Copy, Debug, PartialEq, Eq)]
pub struct Writing {
    pub place: Place,
    pub number: i32,
    pub step: usize,
    pub process: usize,
    /// Whether that process has lived since.
    pub lives: bool,
}

/// The last writing of each cell that was written.
#[derive(Drop)]
pub struct Writings {
    items: Vec<Writing>,
}

impl Writings {
    /// None yet.
    pub fn new(alloc: Global) -> Writings {
        Writings {
            items: Vec::new(alloc),
        }
    }

    /// That of a cell.
    pub fn of(&self, place: Place) -> Option<Writing> {
        for writing in self.items.as_slice() {
            if writing.place == place {
                return Some(*writing);
            }
        }
        None
    }

    /// A cell is written.
    pub fn keep(&mut self, writing: Writing) -> Result<(), AllocError> {
        let items = self.items.as_mut_slice();
        for at in 0..items.len() {
            if items[at].place == writing.place {
                items[at] = writing;
                return Ok(());
            }
        }
        self.items.push(writing)?;
        Ok(())
    }

    // The cells of processes that have ended are no more.
    fn let_go(&mut self, processes: usize) {
        let mut at = 0usize;
        for _ in 0..self.items.len() {
            if at >= self.items.len() {
                break;
            }
            if self.items[at].place.frame > processes {
                let _ = self.items.remove(at);
            } else {
                at += 1;
            }
        }
    }

    /// So many processes live behind a step.
    pub fn settle(&mut self, processes: usize) {
        self.let_go(processes);
        let items = self.items.as_mut_slice();
        for at in 0..items.len() {
            let writing = items[at];
            items[at] = Writing {
                lives: writing.lives && writing.process < processes,
                ..writing
            };
        }
    }
}

fn add_of_basic(view: &View<'_>, basic: Option<&Basic<'_>>, reads: &mut Reads) {
    if let Some(Basic::Plain(Action::Holds(e))) = basic {
        add_reads(e, view, reads);
    }
}

fn add_of_pick(live: &Live<'_, '_>, pick: Pick, timeout: bool, reads: &mut Reads) {
    if pick.process >= live.process_count() {
        return;
    }
    let view = live.view(pick.process, timeout);
    if let Some(offer) = picked(live, pick) {
        add_of_basic(&view, offer.body.basic(*offer.edge), reads);
    }
}

/// What the condition reads that a process waits at.
pub fn reads_of(alloc: Global, live: &Live<'_, '_>, wait: &Wait) -> Result<Reads, AllocError> {
    let mut reads = Reads::new(alloc);
    if let (Some(pick), Because::False) = (wait.pick, wait.because) {
        add_of_pick(live, pick, wait.timeout, &mut reads);
    }
    reads.answer()?;
    Ok(reads)
}

/// The cell of the globals that is read.
pub fn global_of(read: ReadValue) -> Option<Place> {
    match read {
        ReadValue::Cell(place) if place.frame == 0 => Some(place),
        _ => None,
    }
}

// The cell that is read, of the globals or of a process.
fn cell_of(read: ReadValue) -> Option<Place> {
    match read {
        ReadValue::Cell(place) => Some(place),
        _ => None,
    }
}

/// The process that one with this only wait waits for at a condition: the one other process that wrote last what that reads.
pub fn awaited_writer(
    alloc: Global,
    live: &Live<'_, '_>,
    process: usize,
    wait: &Wait,
    writings: &Writings,
) -> Result<Option<usize>, AllocError> {
    let reads = reads_of(alloc, live, wait)?;
    let mut found = None;
    for read in reads.items() {
        let Some(other) = writer_of(*read, process, writings) else {
            continue;
        };
        if found.is_some() && found != Some(other) {
            return Ok(None);
        }
        found = Some(other);
    }
    Ok(found)
}

// The process that wrote last what is read, where it lives and is another.
fn writer_of(read: ReadValue, process: usize, writings: &Writings) -> Option<usize> {
    let writing = writings.of(global_of(read)?)?;
    if writing.lives && writing.process != process {
        Some(writing.process)
    } else {
        None
    }
}

/// Writes the name of a cell, as commands take it: `x`, or `P[2].x` of process 2.
pub fn add_cell_name(live: &Live<'_, '_>, place: Place, out: &mut Writer)
    ensures { Stays out.old out.new }
{
    if place.frame > 0 {
        add_name(live, place.frame - 1, out);
        out.add(b"[");
        out.number(place.frame - 1);
        out.add(b"].");
    }
    add_path(live, place, out);
}

/// Writes who wrote a cell last: `sem: proc 1 (B) set 0 at step 4`.
pub fn add_writing(live: &Live<'_, '_>, place: Place, writing: Option<Writing>, out: &mut Writer)
    ensures { Stays out.old out.new }
{
    add_cell_name(live, place, out);
    let Some(writing) = writing else {
        out.add(b": no step set it\n");
        return;
    };
    out.add(b": ");
    if writing.lives {
        add_process(live, writing.process, out);
    } else {
        out.add(b"proc ");
        out.number(writing.process);
        out.add(b", which has ended,");
    }
    out.add(b" set ");
    add_value(live, form_at(live, place), writing.number, out);
    out.add(b" at step ");
    out.number(writing.step);
    out.add(b"\n");
}

fn has(known: &[Place], place: Place) -> bool {
    for one in known {
        if *one == place {
            return true;
        }
    }
    false
}

// Writes the line of a cell that is read, unless it is known.
fn add_known(
    live: &Live<'_, '_>,
    read: ReadValue,
    writings: &Writings,
    known: &mut Vec<Place>,
    out: &mut Writer,
) -> Result<(), AllocError>
    ensures { Stays out.old out.new }
{
    let Some(place) = cell_of(read) else {
        return Ok(());
    };
    if has(known.as_slice(), place) {
        return Ok(());
    }
    known.push(place)?;
    add_writing(live, place, writings.of(place), out);
    Ok(())
}

// Writes the lines of what the condition of a wait reads.
fn add_read(
    live: &Live<'_, '_>,
    wait: &Wait,
    writings: &Writings,
    known: &mut Vec<Place>,
    out: &mut Writer,
) -> Result<(), AllocError>
    ensures { Stays out.old out.new }
{
    let reads = reads_of(out.allocator(), live, wait)?;
    for read in reads.items() {
        add_known(live, *read, writings, known, out)?;
    }
    Ok(())
}

/// Writes a line for each cell that the conditions of these waits read, unless it is known: who wrote it last on this walk.
pub fn add_writers(
    live: &Live<'_, '_>,
    waits: &[Wait],
    writings: &Writings,
    known: &mut Vec<Place>,
    out: &mut Writer,
) -> Result<(), AllocError>
    ensures { Stays out.old out.new }
{
    for wait in waits {
        add_read(live, wait, writings, known, out)?;
    }
    Ok(())
}
