//! A run as lines of JSON, and as items of a list.

ghost use Rattle.std.specs.Prelude.{◌≡◌, [], false};
ghost use Rattle.promela_run.specs.World as world;
ghost use Rattle.view_walk.specs.Walks.{SameModel};

use crate::next::{Next, follow, move_at};
use devices::Source;
use diagnostics::Fault;
use promela_run::moves::Move;
use session::Broken;
use std::alloc::{AllocError, Global};
use view_json::lines::{
    Ahead, Done, Listing, Note, Past, Shown, add_end, add_fault, add_step, choices_of, front,
};
use view_page::page::{add_end_item, add_fault_item, add_item};
use view_past::states::{MOST_STATES, States};
use view_past::whole::add_whole;
use view_session::notes::Notes;
use view_session::past::history_of;
use view_session::replay::Replay;
use view_session::steps::choose;
use view_state::choices::add_move;
use view_text::writer::Writer;
use view_tokens::tokens::Json;
use view_waits::transfer::{Transfer, transfer_of};
use view_walk::walk::{Walk, Went};

/// Where the lines and the items of a run are written.
#[derive(Drop)]
pub struct Sheet {
    pub lines: Writer,
    pub items: Writer,
    /// Whether items are wanted.
    pub has_items: bool,
    /// What was shown last.
    pub shown: Shown,
    /// What a trail says beside steps.
    pub notes: Notes,
    /// Those behind the steps that were written, or some of the first of them.
    states: States,
}

impl Sheet {
    /// Nothing is written yet.
    pub fn new(alloc: Global) -> Sheet
        ensures { result.lines ≡ record { text = []; refused = false } }
    {
        Sheet {
            lines: Writer::new(alloc),
            items: Writer::new(alloc),
            has_items: false,
            shown: Shown::new(alloc),
            notes: Notes::new(alloc),
            states: States::new(alloc),
        }
    }

    /// What is written from here on begins with a state of which nothing was shown.
    pub fn show_anew(&mut self)
        ensures { self.new.lines ≡ self.old.lines }
    {
        self.shown = Shown::new(self.lines.allocator());
    }

    // Writes the item of a step with this text that printed these bytes, if items are wanted.
    fn add_item(&mut self, text: &Writer, taking: Taking<'_>, printed: &[u8])
        ensures { self.new.lines ≡ self.old.lines }
    {
        if self.has_items {
            let of = taking.moves.len();
            self.items.keep_refusal(text);
            add_item(text.bytes(), printed, taking.choice, of, &mut self.items);
        }
    }

    // Writes the item of a step with this text that came to a fault, if items are wanted.
    fn add_fault_item(&mut self, text: &Writer, fault: Fault)
        ensures { self.new.lines ≡ self.old.lines }
    {
        if self.has_items {
            self.items.keep_refusal(text);
            add_fault_item(text.bytes(), fault, &mut self.items);
        }
    }

    // Writes the item of an end, if items are wanted.
    fn add_end_item(&mut self, end: &str)
        ensures { self.new.lines ≡ self.old.lines }
    {
        if self.has_items {
            add_end_item(end.as_bytes(), &mut self.items);
        }
    }
}

// Keeps the state where a walk stands, if those before it are kept. Behind how many steps it stood first, where it stood before.
fn keep_state(walk: &Walk<'_, '_>, sheet: &mut Sheet) -> Result<Option<usize>, AllocError>
    ensures { sheet.new.lines ≡ sheet.old.lines }
{
    let at = walk.at();
    let is_next = sheet.states.len() == at && at < MOST_STATES;
    if !is_next || sheet.states.is_full() {
        return Ok(None);
    }
    let mut text = Writer::new(sheet.lines.allocator());
    add_whole(walk.world().live(), &mut text);
    let text = text.finish()?;
    sheet.states.add(text.as_slice())
}

// A step is to be taken where a walk stands: what came behind it may be another.
fn step_from(walk: &Walk<'_, '_>, sheet: &mut Sheet) -> Result<(), AllocError>
    ensures { sheet.new.lines ≡ sheet.old.lines }
{
    sheet.states.cut(walk.at().saturating_add(1));
    sheet.notes.step_from(walk.at());
    keep_state(walk, sheet)?;
    Ok(())
}

/// A step that is about to be taken.
#[derive(Clone, Copy)]
struct Taking<'s> {
    choice: usize,
    moves: &'s [Move],
    m: Move,
    transfer: &'s Transfer,
}

/// A step that was taken: what was told of it before, the choices that it was one of, how many processes there were, and what it printed.
#[derive(Clone, Copy)]
struct Taken<'s> {
    choices: &'s Listing,
    older: usize,
    printed: &'s [u8],
}

// What is told of a step before it is taken.
fn front_of(walk: &Walk<'_, '_>, event: &str, taking: Taking<'_>, sheet: &Sheet) -> Json {
    let ahead = Ahead {
        step: walk.at().saturating_add(1),
        choice: taking.choice,
        moves: taking.moves,
        transfer: taking.transfer,
    };
    let live = walk.world().live();
    front(live, sheet.lines.allocator(), event, ahead, &taking.m)
}

// What a trail says beside the last step of a walk.
fn note_of(walk: &Walk<'_, '_>, sheet: &mut Sheet) -> Note
    ensures { sheet.new.lines ≡ sheet.old.lines }
{
    let step = walk.at();
    Note {
        claim: sheet.notes.claim_at(step, walk.legs()),
        begins_cycle: sheet.notes.begins_cycle(step, walk.legs()),
    }
}

// Writes a step that was taken.
fn add_taken(
    walk: &Walk<'_, '_>,
    front: Json,
    taken: Taken<'_>,
    sheet: &mut Sheet,
) -> Result<(), AllocError> {
    let changes = walk.world().changes()?;
    let moves = walk.moves()?;
    let done = Done {
        printed: taken.printed,
        older: taken.older,
        changes: changes.as_slice(),
        choices: taken.choices,
        same_as: keep_state(walk, sheet)?,
        note: note_of(walk, sheet),
    };
    add_step(
        walk.world().live(),
        front,
        done,
        moves.as_slice(),
        &mut sheet.shown,
        &mut sheet.lines,
    )
}

// Writes a step that came to a fault, and that the run ends so.
fn add_faulted(walk: &Walk<'_, '_>, fault: Fault, taking: Taking<'_>, sheet: &mut Sheet) {
    let again = front_of(walk, "fault", taking, sheet);
    let live = walk.world().live();
    let lines = &mut sheet.lines;
    add_fault(live, again, &taking.m, fault, taking.moves, lines);
    add_end(live, walk.at(), "fault", &[], None, lines);
}

// The text of a move, if items are wanted.
fn item_text(walk: &Walk<'_, '_>, m: &Move, sheet: &Sheet) -> Writer
    ensures { sheet.now.has_items ≡ false → result.text ≡ [] }
{
    let mut text = Writer::new(sheet.lines.allocator());
    if sheet.has_items {
        add_move(walk.world().live(), m, &mut text);
    }
    text
}

// Takes a step and writes it. Why the run ends, where it does.
fn take(
    walk: &mut Walk<'_, '_>,
    taking: Taking<'_>,
    sheet: &mut Sheet,
) -> Result<Option<&'static str>, AllocError>
    ensures { SameModel walk.old walk.new }
{
    let alloc = sheet.lines.allocator();
    let text = item_text(walk, &taking.m, sheet);
    let front = front_of(walk, "step", taking, sheet);
    let choices = choices_of(walk.world().live(), alloc, taking.moves);
    let older = walk.world().process_count();
    let mut printed = Vec::new(alloc);
    step_from(walk, sheet)?;
    match choose(walk, taking.choice, &mut printed)? {
        Went::On => {
            sheet.add_item(&text, taking, printed.as_slice());
            let taken = Taken {
                choices: &choices,
                older,
                printed: printed.as_slice(),
            };
            add_taken(walk, front, taken, sheet)?;
            Ok(None)
        }
        Went::Faults(fault) => {
            sheet.add_fault_item(&text, fault);
            add_faulted(walk, fault, taking, sheet);
            Ok(Some("fault"))
        }
        Went::Nowhere => Ok(Some("choice misfit")),
    }
}

// Takes the move with this number and writes it.
fn take_choice(
    walk: &mut Walk<'_, '_>,
    moves: &[Move],
    choice: usize,
    sheet: &mut Sheet,
) -> Result<Option<&'static str>, AllocError>
    ensures { SameModel walk.old walk.new }
{
    let Some(m) = move_at(moves, choice) else {
        return Ok(Some("choice misfit"));
    };
    let transfer = transfer_of(sheet.lines.allocator(), walk.world().live(), &m)?;
    let taking = Taking {
        choice,
        moves,
        m,
        transfer: &transfer,
    };
    take(walk, taking, sheet)
}

// Writes how a run ends where a walk stands that has these moves, and what led there, where it is no valid end.
fn add_ending(
    walk: &mut Walk<'_, '_>,
    end: &str,
    moves: &[Move],
    sheet: &mut Sheet,
) -> Result<(), AllocError>
    ensures { SameModel walk.old walk.new }
{
    let at = walk.at();
    if end != "invalid" {
        let live = walk.world().live();
        add_end(live, at, end, moves, None, &mut sheet.lines);
        return Ok(());
    }
    let history = history_of(walk, &sheet.lines)?;
    let past = Past {
        uses: &history.uses,
        writings: &history.writings,
    };
    let live = walk.world().live();
    add_end(live, at, end, moves, Some(past), &mut sheet.lines);
    Ok(())
}

/// Takes the next step of a run and writes it, or writes its end, where these are the moves of the state where the walk stands. Why it ends, where it does.
pub fn add_next_of<S: Source>(
    walk: &mut Walk<'_, '_>,
    moves: &[Move],
    replay: &mut Replay<S>,
    limit: usize,
    sheet: &mut Sheet,
) -> Result<Option<&'static str>, Broken>
    requires { moves.now ≡ world.world_moves walk.old.state }
    ensures { SameModel walk.old walk.new }
{
    let alloc = sheet.lines.allocator();
    match follow(alloc, walk, moves, replay, limit)? {
        Next::Take(choice) => Ok(take_choice(walk, moves, choice, sheet)?),
        Next::End(end) => {
            add_ending(walk, end, moves, sheet)?;
            sheet.add_end_item(end);
            Ok(Some(end))
        }
    }
}

/// Takes the next step of a run and writes it, or writes its end. Why it ends, where it does.
pub fn add_next<S: Source>(
    walk: &mut Walk<'_, '_>,
    replay: &mut Replay<S>,
    limit: usize,
    sheet: &mut Sheet,
) -> Result<Option<&'static str>, Broken>
    ensures { SameModel walk.old walk.new }
{
    let moves = walk.moves()?;
    add_next_of(walk, moves.as_slice(), replay, limit, sheet)
}
