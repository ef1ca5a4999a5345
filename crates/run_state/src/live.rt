//! What lives in a run.

ghost use Rattle.std.specs.Prelude.{◌≡◌, ◌+◌, ◌<◌, ◌≤◌, [], None, Ok, Some, IfOk, IfSome, OnOk, length, map, option_map, slice_get};
ghost use Rattle.pml_store.specs.Writing.{before};
ghost use Rattle.std.specs.Option.{option_copied};
ghost use Rattle.profile.specs.declared.TheConstants.{MOST_CHANNELS, MOST_PROCESSES};
ghost use Rattle.run_start.specs.Shown.{begun};
ghost use Rattle.run_start.specs.Bound.{bound, most_cells, IsBounded};
ghost use Rattle.run_start.specs.Starting.{Declares, IsDeclared};
ghost use Rattle.run_state.specs.Standing.{stand_of, IsBody, StandsIn};
ghost use Rattle.promela_run.specs.State.{body_of, reads};
ghost use Rattle.pml_value.specs.Seen.{assigned, seen};
ghost use Rattle.promela_run.specs.Statements.{changed, contents_at, outcome, taken_at, with_message};
ghost use Rattle.promela_process.specs.Store.{size_at};
ghost use Rattle.pml_eval.specs.There.{AreThere};
ghost use Rattle.pml_value.specs.Takes.{IsIn};
ghost use Rattle.promela_run.specs.Steps.{put_all, put_by, sorts, with_new, with_received, with_sent};
ghost use Rattle.run_state.specs.Footprint.{held};
ghost use Rattle.run_state.specs.Live.{Leads, Keeps, Joins, PastGrows, along, at_node, died};
ghost use Rattle.promela_run.specs.World.{first};
ghost use Rattle.run_state.specs.Calls.{put_if};
ghost use Rattle.run_state.specs.Storing.{AreIn};

use crate::body::Body;
use crate::channels::{keep_others, message_numbers};
use crate::played::{Played, seats_of};
use crate::seat::Seat;
use crate::storing::store_all;
use diagnostics::Stop;
use pml_flow::edge::Edge;
use pml_program::expr::{Expr, Target};
use pml_program::program::{Action, Program};
use pml_store::store::Store;
use pml_tree::tree::{Removal, Search, SendOrder};
use pml_value::message::put_at;
use pml_value::receive::take_from;
use pml_value::statement::{assigned, outcome};
use pml_value::view::View;
use promela_process::sought::Sought;
use promela_run::goes::Goes;
use promela_run::live_channel::LiveChannel;
use run_layout::tables::Tables;
use run_start::create::create;
use run_start::started::Started;
use std::alloc::{AllocError, Global};
use std::marker::Model;

/// A model that is played, and a state of it, what lives: variables, channels and the proctypes of the processes; the processes, the
/// oldest first; which of them holds exclusive control; and whether what is sent to a full channel is lost. Contracts see the state, and
/// what there was when its step began.
#[derive(Drop)]
pub struct Live<'p, 'a> {
    pub(crate) played: Played<'p, 'a>,
    pub(crate) started: Started,
    pub(crate) seats: Vec<Seat>,
    holder: Option<usize>,
    lossy: bool,
}

impl<'p, 'a> Model for Live<'p, 'a> {
    ghost use Rattle.std.specs.Prelude.{[], map};
    ghost use Rattle.std.specs.Coded.{codes};
    ghost use mir.Syntax.{named};
    ghost use Rattle.pml_program.specs.contracts.expr.Expr as worth;
    ghost use Rattle.pml_program.specs.contracts.program.Seq as seq;
    ghost use Rattle.pml_program.specs.contracts.program.Basic as basic;
    ghost use Rattle.promela_run.specs.World.{Running};
    ghost use Rattle.promela_run.specs.Steps.{sorts, with_new};
    ghost use Rattle.run_state.specs.Held.{IsHeld, live_of};

    ghost Value = { Running };

    ghost coded = { Prim.hlevel (codes, worth.the_row.coded, (seq.the_row (record { mir = named 0; lft = [] })).coded, (basic.the_row (record { mir = named 0; lft = [] })).coded) };

    ghost view = { λ l. live_of l.played l.started.store l.started.channels.items l.seats.items l.holder l.lossy };

    ghost invariant = { λ l. IsHeld l.played l.started.store l.started.channels.items l.started.sorts.items l.seats.items };
}

impl<'p, 'a> Live<'p, 'a> {
    /// The first state.
    pub fn first(
        alloc: Global,
        played: Played<'p, 'a>,
        started: Started,
        lossy: bool,
    ) -> Result<Live<'p, 'a>, AllocError>
        requires declared { Declares played started }
        requires fresh { started.store.written ≡ [] }
        requires bounded { IsBounded played started.store started.channels.items }
        ensures { IfOk result (λ l. l ≡ first (begun played.entry started) lossy) }
    {
        let seats = seats_of(alloc, &played, started.sorts.as_slice())?;
        Ok(Live {
            played,
            started,
            seats,
            holder: None,
            lossy,
        })
    }

    /// A step begins: what is there is what was there before it.
    pub fn forget(&mut self)
        ensures { self.new ≡ record self.old { past = self.old.state.frames } }
    {
        self.started.store.forget();
    }

    /// A process goes on to a node of its graph.
    pub fn go_to(&mut self, process: usize, node: usize)
        ensures { self.new ≡ at_node self.old process node }
    {
        if process < self.seats.len() {
            self.seats[process].node = node;
        }
    }

    /// A process goes where an edge leads, and holds exclusive control where the edge stays in one atomic; else nobody does.
    pub fn follow(&mut self, process: usize, edge: Edge)
        ensures { self.new ≡ along self.old process edge }
    {
        self.go_to(process, edge.target);
        self.holder = if edge.keeps { Some(process) } else { None };
    }

    /// The youngest process dies.
    pub fn die(&mut self)
        requires { 0 < length self.old.state.stands }
        ensures { self.new ≡ died self.old }
    {
        let youngest = self.seats.len() - 1;
        keep_others(&mut self.started.channels, youngest + 1);
        self.started.store.pop_frame();
        self.started.sorts.truncate(youngest);
        self.seats.truncate(youngest);
        self.holder = None;
    }
}

impl<'p, 'a> Live<'p, 'a> {
    /// The model.
    pub fn program(&self) -> &'p Program<'a>
        ensures { result.now ≡ self.now.state.program }
    {
        self.played.program()
    }

    /// Its tables.
    pub fn tables(&self) -> &Tables<'p, 'a>
        ensures { result.now ≡ self.now.state.program }
    {
        self.played.tables()
    }

    /// What the variables hold, and the log of what was written.
    pub fn variables(&self) -> &Store
        ensures frames { result.now.frames ≡ self.now.state.frames }
        ensures past { before result.now ≡ self.now.past }
        ensures most { result.now.most ≡ most_cells self.now.state.program }
    {
        &self.started.store
    }

    /// The proctypes of the processes, by their numbers.
    pub fn sorts(&self) -> &[usize]
        ensures value { result.now ≡ sorts self.now.state }
        ensures declared { IsDeclared self.now.state.program self.now.state.frames (sorts self.now.state) }
    {
        self.started.sorts.as_slice()
    }

    /// How many processes live.
    pub fn process_count(&self) -> usize
        ensures value { result ≡ length self.now.state.stands }
        ensures few { result ≤ MOST_PROCESSES }
        ensures frames { length self.now.state.frames ≡ result + 1 }
    {
        self.seats.len()
    }

    /// The processes, the oldest first.
    pub fn seats(&self) -> &[Seat]
        ensures { map (stand_of self.now.state.program) result.now ≡ self.now.state.stands }
    {
        self.seats.as_slice()
    }

    /// The channels, the oldest first.
    pub fn channels(&self) -> &[LiveChannel]
        ensures { result.now ≡ self.now.state.channels }
    {
        self.started.channels.as_slice()
    }

    /// The process that holds exclusive control.
    pub fn holder(&self) -> Option<usize>
        ensures { result ≡ self.now.state.holder }
    {
        self.holder
    }

    /// Whether what is sent to a full channel is lost.
    pub fn is_lossy(&self) -> bool
        ensures { result ≡ self.now.state.lossy }
    {
        self.lossy
    }

    /// The body of the proctype with this number.
    pub fn body(&self, sort: usize) -> Option<Body<'_, 'p, 'a>>
        ensures proctype { option_map (λ k. k.proctype.now) result ≡ slice_get self.now.state.program.proctypes sort }
        ensures body { option_map (λ k. k.proctype.now.body) result ≡ body_of self.now.state.program sort }
        ensures is { IfSome result IsBody }
    {
        self.played.body(sort)
    }

    /// The body in which a process stands, where something is left to do.
    pub fn standing(&self, seat: Seat) -> Option<Body<'_, 'p, 'a>>
        ensures left { IfSome result (λ k. StandsIn self.now.state seat k) }
        ensures closed { result ≡ None → (stand_of self.now.state.program seat).control ≡ [] }
    {
        let body = self.body(seat.sort)?;
        if seat.node == 0 {
            return None;
        }
        if body.has_node(seat.node) {
            Some(body)
        } else {
            None
        }
    }

    /// How much it keeps: the numbers in variables and messages, two for each process and two for each channel.
    pub fn footprint(&self) -> usize
        ensures value { result ≡ held self.now.state }
        ensures bound { result ≤ bound self.now.state.program }
        ensures processes { length self.now.state.stands ≤ MOST_PROCESSES }
        ensures channels { length self.now.state.channels ≤ MOST_CHANNELS }
    {
        let cells = self.started.store.cells().len();
        let numbers = message_numbers(self.started.channels.as_slice());
        cells + numbers + 2 * self.seats.len() + 2 * self.started.channels.len()
    }

    /// What an expression of a process reads.
    pub fn view(&self, process: usize, timeout: bool) -> View<'_>
        requires { process < length self.now.state.stands }
        ensures reads { seen result ≡ reads self.now.state process timeout }
        ensures channels { result.channels.now ≡ self.now.state.channels }
    {
        let process_count = self.seats.len() as u8;
        let store = &self.started.store;
        View::new(
            store,
            self.channels(),
            process as u8,
            process_count,
            timeout,
        )
    }

    /// Takes an assignment to a variable.
    #[inline(always)]
    fn assign(
        &mut self,
        process: usize,
        timeout: bool,
        target: &Target,
        value: &Expr,
    ) -> Result<(), Stop>
        requires { process < length self.old.state.stands }
        ensures value { Leads (put_by self.old.state (assigned (Some target.now) value.now (reads self.old.state process timeout))) result self.new.state }
        ensures keeps { Keeps self.old self.new }
    {
        match assigned(target, value, &self.view(process, timeout)) {
            Err(fault) => Err(Stop::Fault(fault)),
            Ok(goes) => match self.started.store.set(goes.place, goes.number) {
                Ok(()) => Ok(()),
                Err(_) => Err(Stop::Memory),
            },
        }
    }

    /// Takes an assignment, an increment, a decrement or a condition of a process.
    #[inline(always)]
    pub fn store(&mut self, process: usize, timeout: bool, action: &Action<'_>) -> Result<(), Stop>
        requires { process < length self.old.state.stands }
        ensures value { Leads (put_by self.old.state (outcome action.now (reads self.old.state process timeout))) result self.new.state }
        ensures keeps { Keeps self.old self.new }
    {
        if let Action::Assign(Some(target), value) = action {
            return self.assign(process, timeout, target, value);
        }
        match outcome(action, &self.view(process, timeout)) {
            Err(fault) => Err(Stop::Fault(fault)),
            Ok(goes) => self.put(goes),
        }
    }

    /// Puts a message into the channel at a place.
    #[inline(always)]
    pub fn put_message(&mut self, at: usize, order: SendOrder, fields: &[i32]) -> Result<(), Stop>
        requires there { at < length self.old.state.channels }
        requires arity { length fields.now ≡ length (contents_at self.old.state.channels at).types }
        ensures value { Leads (with_sent self.old.state (Ok (changed at (with_message order fields.now) self.old.state.channels))) result self.new.state }
        ensures keeps { Keeps self.old self.new }
    {
        let channels = self.started.channels.as_mut_slice();
        match put_at(channels, at, order, fields) {
            Ok(()) => Ok(()),
            Err(_) => Err(Stop::Memory),
        }
    }

    /// Receives the message of the channel at a place that is found, if there is one.
    #[inline(always)]
    pub fn take_message(
        &mut self,
        at: usize,
        search: Search,
        removal: Removal,
        sought: &[Sought],
    ) -> Result<(), Stop>
        requires there { at < length self.old.state.channels }
        requires places { AreThere (size_at self.old.state.frames) sought.now }
        ensures value { Leads (with_received self.old.state (Ok (taken_at self.old.state.channels at search removal sought.now))) result self.new.state }
        ensures keeps { Keeps self.old self.new }
    {
        let store = &mut self.started.store;
        let channels = self.started.channels.as_mut_slice();
        match take_from(store, channels, at, search, removal, sought) {
            Ok(()) => Ok(()),
            Err(_) => Err(Stop::Memory),
        }
    }
}

impl<'p, 'a> Live<'p, 'a> {
    /// Stores a number where it goes, if anywhere.
    #[inline(always)]
    pub fn put(&mut self, goes: Option<Goes>) -> Result<(), Stop>
        requires { IfSome goes (IsIn self.old.state.frames) }
        ensures value { Leads (Ok (put_if self.old.state goes)) result self.new.state }
        ensures keeps { Keeps self.old self.new }
    {
        match goes {
            None => Ok(()),
            Some(goes) => match self.started.store.set(goes.place, goes.number) {
                Ok(()) => Ok(()),
                Err(_) => Err(Stop::Memory),
            },
        }
    }

    /// Stores numbers where they go, from left to right.
    pub fn put_all(&mut self, numbers: &[Goes]) -> Result<(), Stop>
        requires { AreIn self.old.state.frames numbers.now }
        ensures value { Leads (Ok (put_all self.old.state numbers.now)) result self.new.state }
        ensures keeps { Keeps self.old self.new }
    {
        match store_all(&mut self.started.store, numbers) {
            Ok(()) => Ok(()),
            Err(_) => Err(Stop::Memory),
        }
    }

    /// Creates a process of the proctype with this number. Where it cannot be created, what lives stays as it was.
    pub fn create(&mut self, sort: usize, arguments: &[i32]) -> Result<(), Stop>
        requires { length self.old.state.stands < MOST_PROCESSES }
        ensures value { Leads (with_new self.old.state sort (slice_get self.old.state.program.proctypes sort) arguments.now) result self.new.state }
        ensures joins { Joins self.old.state self.new.state }
        ensures past { OnOk result (PastGrows self.old self.new) }
    {
        let Some(proctype) = self.played.proctype(sort) else {
            return Ok(());
        };
        let seat = self.played.begins(sort);
        if self.seats.push(seat).is_err() {
            return Err(Stop::Memory);
        }
        let created = create(
            self.played.beginnings(),
            sort,
            proctype.variables.as_slice(),
            arguments,
            &mut self.started,
        );
        if created.is_err() {
            self.seats.pop();
        }
        created
    }
}
