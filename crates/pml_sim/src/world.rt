//! A checked model as a machine.

ghost use Rattle.std.specs.Prelude.{◌≡◌, ◌≤◌, ◌++◌, [], IfOk, OnOk, OnErr, length, option_map};
ghost use Rattle.std.specs.Io.{StartsWith};
ghost use Rattle.std.specs.List.{Contains};
ghost use Rattle.std.specs.Option.{option_copied};
ghost use Rattle.profile.specs.declared.TheConstants.{MOST_CHANNELS, MOST_PROCESSES};
ghost use Rattle.session.specs.Takes.{CanBeTaken, StaysStopped, TakesStep};
ghost use Rattle.run_start.specs.Shown.{begun};
ghost use Rattle.run_start.specs.Bound.{bound, IsBounded};
ghost use Rattle.run_start.specs.Starting.{Declares};
ghost use Rattle.promela_run.specs.State.{channel_at};
ghost use Rattle.run_state.specs.Footprint.{held};
ghost use Rattle.promela_run.specs.World.{first};
ghost use Rattle.run_texts.specs.Charts.{told};
ghost use Rattle.run_texts.specs.Staying as staying;
ghost use Rattle.promela_run.specs.World as world;
ghost use Rattle.pml_sim.specs.Lent as lends;
ghost use Rattle.pml_sim.specs.Lent.{IsFirst};

use crate::ending::Ending;
use diagnostics::Stop;
use pml_channel::channel::Channel;
use pml_check::Checked;
use pml_store::store::Store;
use pml_value::view::named;
use promela_run::halt::Halt;
use promela_run::moves::Move;
use run_layout::tables::Tables;
use run_search::search::add_moves;
use run_start::start::start_by;
use run_start::started::Started;
use run_state::live::Live;
use run_state::played::Played;
use run_step::take::take;
use run_texts::ends::{add_stuck, is_valid, stuck};
use run_texts::kept::KeptTexts;
use run_texts::texts::{add_move, origin};
use run_values::change::{Wanted, logged_lines};
use run_values::changed::{Change, logged_changes, value_line};
use session::{Machine, Report};
use std::alloc::{AllocError, Global};
use std::marker::Model;

/// A model that is played, and where it has stopped.
#[derive(Drop)]
pub struct World<'p, 'a> {
    live: Live<'p, 'a>,
    /// How many processes lived before the last step and still do.
    older: usize,
    halt: Option<Halt>,
    kept: KeptTexts<'p, 'a>,
}

impl<'p, 'a> Model for World<'p, 'a> {
    ghost use Rattle.std.specs.Prelude.{◌≡◌, ◌+◌, [], take};
    ghost use Rattle.std.specs.Coded.{codes};
    ghost use mir.Syntax.{named};
    ghost use Rattle.pml_program.specs.contracts.expr.Expr as worth;
    ghost use Rattle.pml_program.specs.contracts.program.Seq as seq;
    ghost use Rattle.pml_program.specs.contracts.program.Basic as basic;
    ghost use Rattle.promela_run.specs.World.{Running};

    ghost Value = { Running };

    ghost coded = { Prim.hlevel (codes, worth.the_row.coded, (seq.the_row (record { mir = named 0; lft = [] })).coded, (basic.the_row (record { mir = named 0; lft = [] })).coded) };

    ghost view = { λ w. record { state = w.live.state; past = take (w.older + 1) w.live.past; halt = w.halt } };

    ghost invariant = { λ w. w.kept ≡ w.live.state.program };
}

impl<'p, 'a> World<'p, 'a> {
    /// The first state.
    pub fn first(
        alloc: Global,
        played: Played<'p, 'a>,
        started: Started,
        lossy: bool,
    ) -> Result<World<'p, 'a>, AllocError>
        requires declared { Declares played started }
        requires fresh { started.store.written ≡ [] }
        requires bounded { IsBounded played started.store started.channels.items }
        ensures { IfOk result (λ w. w ≡ first (begun played.entry started) lossy) }
    {
        let live = Live::first(alloc, played, started, lossy)?;
        let older = live.process_count();
        let kept = KeptTexts::new(alloc, live.program());
        Ok(World {
            live,
            older,
            halt: None,
            kept,
        })
    }

    /// The first state of a checked model, in which what is sent to a full channel may be lost.
    pub fn start(
        alloc: Global,
        checked: &'p Checked<'a>,
        lossy: bool,
    ) -> Result<World<'p, 'a>, AllocError>
        ensures { IfOk result (IsFirst checked.now lossy) }
    {
        let program = checked.program();
        let played = Played::new(alloc, program, checked.graphs())?;
        match start_by(alloc, program, played.beginnings()) {
            Ok(started) => World::first(alloc, played, started, lossy),
            Err(Stop::Fault(_)) => unreachable!(),
            Err(Stop::Memory) => Err(AllocError),
        }
    }

    // What its vectors take memory from.
    fn allocator(&self) -> Global {
        *self.live.variables().cells().allocator()
    }

    /// All moves of the present state, in order; none, where it has stopped.
    pub fn moves(&self) -> Result<Vec<Move>, AllocError>
        ensures { IfOk result (λ moves. moves.items ≡ world.world_moves self.now) }
    {
        let mut moves = Vec::new(self.allocator());
        Machine::moves(self, &mut moves)?;
        Ok(moves)
    }

    /// Takes a move of the present list, and appends what it prints. After a fault or want of memory it has stopped: each later call
    /// answers the same, and changes nothing. Whatever it answers, the model is the one that it was.
    #[inline(always)]
    pub fn take(&mut self, m: &Move, text: &mut Vec<u8>) -> Result<(), Stop>
        requires present { CanBeTaken world.rules self.old m.now }
        ensures step { Contains (world.world_moves self.old) m.now → TakesStep world.rules self.old m.now self.new text.old.items text.new.items result }
        ensures stopped { StaysStopped world.rules self.old self.new result }
        ensures model { self.new.state.program ≡ self.old.state.program }
        ensures kept { OnErr result (StartsWith text.new.items text.old.items) }
    {
        if let Some(halt) = self.halt {
            return Err(halt.why);
        }
        let before = self.live.process_count();
        KeptTexts::keep_missed(&self.live, &mut self.kept);
        self.live.forget();
        match take(&mut self.live, m, text) {
            Ok(()) => {
                self.older = before.min(self.live.process_count());
                Ok(())
            }
            Err(why) => {
                self.halt = Some(Halt { at: *m, why });
                Err(why)
            }
        }
    }

    /// Appends the text of a move of the present state, or of the one at which it has stopped.
    pub fn show(&self, m: &Move, text: &mut Vec<u8>) -> Result<(), AllocError>
        ensures added { OnOk result (text.new.items ≡ text.old.items ++ world.move_text self.now.state m.now) }
        ensures kept { OnErr result (StartsWith text.new.items text.old.items) }
    {
        add_move(&self.live, *m, text)
    }

    /// The places whose numbers the last step changed, in the order of their value lines: the globals as they are declared, and then
    /// the variables of each process that was there before; an array by its index, a typedef by its fields.
    pub fn changes(&self) -> Result<Vec<Change>, AllocError>
        ensures { IfOk result (λ found. found.items ≡ lends.changes self.now) }
    {
        let sorts = self.live.sorts();
        let count = self.older.min(sorts.len());
        logged_changes(
            self.allocator(),
            self.live.tables(),
            &sorts[..count],
            self.live.variables(),
        )
    }

    /// Appends the value line of a change of the last step.
    pub fn value_line(&self, change: &Change, text: &mut Vec<u8>) -> Result<(), AllocError>
        ensures added { OnOk result (text.new.items ≡ text.old.items ++ lends.value_line self.now change.now) }
        ensures kept { OnErr result (StartsWith text.new.items text.old.items) }
    {
        value_line(self.live.tables(), self.live.sorts(), *change, text)
    }

    /// Whether a run that ends here ends well.
    pub fn ending(&self) -> Ending
        ensures { result ≡ lends.ending self.now }
    {
        if is_valid(&self.live) {
            Ending::Valid
        } else {
            Ending::Invalid
        }
    }

    /// The name of a process and the line of what stands first in it, where it lives and may not end there.
    pub fn stuck(&self, process: usize) -> Option<(&'p [u8], u32)>
        ensures { option_map told result ≡ staying.stuck_of self.now.state process }
    {
        stuck(&self.live, process)
    }

    /// How much it keeps of a run: the numbers in variables and messages, two for each process and two for each channel; at any time, also
    /// where it has stopped, no more than the model says.
    pub fn footprint(&self) -> usize
        ensures value { result ≡ held self.now.state }
        ensures bound { result ≤ bound self.now.state.program }
        ensures processes { length self.now.state.stands ≤ MOST_PROCESSES }
        ensures channels { length self.now.state.channels ≤ MOST_CHANNELS }
    {
        self.live.footprint()
    }

    /// The present state, lent.
    pub fn live(&self) -> &Live<'p, 'a>
        ensures { result.now.state ≡ self.now.state }
    {
        &self.live
    }

    /// The tables of its model, lent.
    pub fn tables(&self) -> &Tables<'p, 'a>
        ensures { result.now ≡ self.now.state.program }
    {
        self.live.tables()
    }

    /// Its variables, lent.
    pub fn variables(&self) -> &Store
        ensures { result.now.frames ≡ self.now.state.frames }
    {
        self.live.variables()
    }

    /// How many processes live.
    pub fn process_count(&self) -> usize
        ensures value { result ≡ length self.now.state.stands }
        ensures few { result ≤ MOST_PROCESSES }
    {
        self.live.process_count()
    }

    /// The process that has exclusive control.
    pub fn holder(&self) -> Option<usize>
        ensures { result ≡ self.now.state.holder }
    {
        self.live.holder()
    }

    /// How many channels live.
    pub fn channel_count(&self) -> usize
        ensures { result ≡ length self.now.state.channels }
    {
        self.live.channels().len()
    }

    /// The channel with this number, from 1 on.
    pub fn channel(&self, number: i32) -> Option<&Channel>
        ensures { option_copied result ≡ channel_at self.now.state.channels number }
    {
        named(self.live.channels(), number)
    }

    /// Appends the value lines of the last step.
    #[inline(always)]
    fn add_values(&self, wanted: Wanted, text: &mut Vec<u8>) -> Result<(), AllocError>
        ensures added { OnOk result (text.new.items ≡ text.old.items ++ world.changed_lines self.now wanted.globals wanted.locals) }
        ensures kept { OnErr result (StartsWith text.new.items text.old.items) }
    {
        let alloc = *text.allocator();
        let sorts = self.live.sorts();
        let older = self.older.min(sorts.len());
        logged_lines(
            alloc,
            self.live.tables(),
            &sorts[..older],
            wanted,
            self.live.variables(),
            text,
        )
    }

    /// Appends a line for each process that may not end where it stands, and answers whether each may.
    #[inline(never)]
    fn add_ending(&self, text: &mut Vec<u8>) -> Result<bool, AllocError>
        ensures valid { IfOk result (λ valid. valid ≡ world.is_valid self.now.state) }
        ensures added { OnOk result (text.new.items ≡ text.old.items ++ world.stuck self.now.state) }
        ensures kept { OnErr result (StartsWith text.new.items text.old.items) }
    {
        let valid = is_valid(&self.live);
        add_stuck(&self.live, text)?;
        Ok(valid)
    }
}

impl Machine for World<'_, '_> {
    type Move = Move;

    ghost rules = { world.rules };

    #[inline(always)]
    fn moves(&self, moves: &mut Vec<Move>) -> Result<(), AllocError> {
        moves.clear();
        if self.halt.is_some() {
            return Ok(());
        }
        add_moves(&self.live, moves)
    }

    #[inline(always)]
    fn show(&self, m: &Move, text: &mut Vec<u8>) -> Result<(), AllocError> {
        KeptTexts::add_move(&self.live, &self.kept, *m, text)
    }

    fn origin(&self, m: &Move) -> (u32, u32) {
        origin(&self.live, *m)
    }

    #[inline(always)]
    fn take(&mut self, m: &Move, text: &mut Vec<u8>) -> Result<(), Stop> {
        World::take(self, m, text)
    }

    #[inline(always)]
    fn report(&self, what: Report, text: &mut Vec<u8>) -> Result<bool, AllocError> {
        match what {
            Report::Values(globals, locals) => {
                self.add_values(Wanted { globals, locals }, text)?;
                Ok(true)
            }
            Report::Ending => self.add_ending(text),
        }
    }
}
