//! A walk.

ghost use Rattle.std.specs.Prelude.{◌≡◌, ◌+◌, ◌<◌, ◌≤◌, [], true, false, IfOk, OnOk, OnErr, length, take, slice_get, vec_len, vec_capacity};
ghost use Rattle.diagnostics.specs.declared.fault.Fault.{Fault};
ghost use Rattle.promela_run.specs.World.{world_moves};
ghost use Rattle.view_walk.specs.Choices.{numbered, with_leg};
ghost use Rattle.view_walk.specs.Walks.{legs_behind, SameModel, StandsAs};
ghost use Rattle.view_walk.specs.declared.walk.Went.TheVariants.{On, Faults, Nowhere};

use crate::leg::Leg;
use diagnostics::{Fault, Stop};
use pml_check::Checked;
use pml_sim::world::World;
use promela_run::moves::Move;
use std::alloc::{AllocError, Global};
use std::marker::Model;

/// How a step went.
#[derive(Clone, Copy, Debug, PartialEq, Eq)]
pub enum Went {
    On,
    /// It came to a fault, and is not taken.
    Faults(Fault),
    /// There is no such move.
    Nowhere,
}

/// A walk through the states of a checked model.
#[derive(Drop)]
pub struct Walk<'p, 'a> {
    checked: &'p Checked<'a>,
    lossy: bool,
    world: World<'p, 'a>,
    legs: Vec<Leg>,
    at: usize,
    /// The machine has stopped on its way, for want of memory.
    is_lost: bool,
}

impl<'p, 'a> Model for Walk<'p, 'a> {
    ghost use Rattle.std.specs.Prelude.{[]};
    ghost use Rattle.std.specs.Coded.{codes};
    ghost use mir.Syntax.{named};
    ghost use Rattle.pml_program.specs.contracts.expr.Expr as worth;
    ghost use Rattle.pml_program.specs.contracts.program.Seq as seq;
    ghost use Rattle.pml_program.specs.contracts.program.Basic as basic;
    ghost use Rattle.view_walk.specs.Walks.{Walked, IsWalk};

    ghost Value = { Walked };

    ghost coded = { Prim.hlevel (codes, worth.the_row.coded, (seq.the_row (record { mir = named 0; lft = [] })).coded, (basic.the_row (record { mir = named 0; lft = [] })).coded) };

    ghost view = { λ w. record { program = w.checked.now; lossy = w.lossy; legs = w.legs.items; at = w.at; is_lost = w.is_lost; state = w.world } };

    ghost invariant = { λ w. IsWalk (record { program = w.checked.now; lossy = w.lossy; legs = w.legs.items; at = w.at; is_lost = w.is_lost; state = w.world }) };
}

fn move_at(moves: &[Move], choice: usize) -> Option<Move>
    ensures { result ≡ numbered moves.now choice }
{
    if choice == 0 {
        return None;
    }
    match moves.get(choice - 1) {
        Some(m) => Some(*m),
        None => None,
    }
}

fn leg_at(legs: &[Leg], at: usize) -> Option<Leg>
    ensures { result ≡ slice_get legs.now at }
{
    match legs.get(at) {
        Some(leg) => Some(*leg),
        None => None,
    }
}

// A choice is made at this place. There is room for one more.
fn put(legs: &mut Vec<Leg>, at: usize, leg: Leg)
    requires room { vec_len legs.old < vec_capacity legs.old }
    ensures { legs.new.items ≡ with_leg legs.old.items at leg }
{
    if leg_at(legs.as_slice(), at) == Some(leg) {
        return;
    }
    legs.truncate(at);
    legs.push_reserved(leg);
}

impl<'p, 'a> Walk<'p, 'a> {
    /// At the first state, without a choice.
    pub fn new(
        alloc: Global,
        checked: &'p Checked<'a>,
        lossy: bool,
    ) -> Result<Walk<'p, 'a>, AllocError>
        ensures legs { IfOk result (λ w. w.legs ≡ []) }
        ensures model { IfOk result (λ w. w.program ≡ checked.now) }
        ensures lossy { IfOk result (λ w. w.lossy ≡ lossy) }
    {
        let world = World::start(alloc, checked, lossy)?;
        Ok(Walk {
            checked,
            lossy,
            world,
            legs: Vec::new(alloc),
            at: 0,
            is_lost: false,
        })
    }

    /// The machine, in the state behind the choices that stand, unless the walk is lost.
    pub fn world(&self) -> &World<'p, 'a>
        ensures { result.now ≡ self.now.state }
    {
        &self.world
    }

    /// How many choices stand.
    pub fn at(&self) -> usize
        ensures value { result ≡ self.now.at }
        ensures within { result ≤ length self.now.legs }
    {
        self.at
    }

    /// The choices; those behind the place where the walk stands are still to come.
    pub fn legs(&self) -> &[Leg]
        ensures { result.now ≡ self.now.legs }
    {
        self.legs.as_slice()
    }

    /// The next of the choices that are still to come.
    pub fn next(&self) -> Option<Leg>
        ensures { result ≡ slice_get self.now.legs self.now.at }
    {
        leg_at(self.legs.as_slice(), self.at)
    }

    /// Whether memory was refused on the way to where it stands: to go anywhere leads out of this.
    pub fn is_lost(&self) -> bool
        ensures { result ≡ self.now.is_lost }
    {
        self.is_lost
    }

    /// The moves of the state where it stands.
    pub fn moves(&self) -> Result<Vec<Move>, AllocError>
        ensures { IfOk result (λ v. v.items ≡ world_moves self.now.state) }
    {
        self.world.moves()
    }

    // At the first state again, with all choices.
    fn begin_again(&mut self) -> Result<(), AllocError>
        ensures model { SameModel self.old self.new }
        ensures legs { self.new.legs ≡ self.old.legs }
        ensures ok { OnOk result (self.new.at ≡ 0) }
        ensures found { OnOk result (self.new.is_lost ≡ false) }
        ensures err { OnErr result (self.new ≡ self.old) }
    {
        let alloc = *self.legs.allocator();
        self.world = World::start(alloc, self.checked, self.lossy)?;
        self.at = 0;
        self.is_lost = false;
        Ok(())
    }

    // Takes the next of the choices.
    fn step_on(&mut self, printed: &mut Vec<u8>) -> Result<(), AllocError>
        requires found { self.old.is_lost ≡ false }
        requires next { self.old.at < length self.old.legs }
        ensures model { SameModel self.old self.new }
        ensures legs { self.new.legs ≡ self.old.legs }
        ensures ok { OnOk result (self.new.at ≡ self.old.at + 1) }
        ensures found { OnOk result (self.new.is_lost ≡ false) }
    {
        let leg = self.legs[self.at];
        let moves = self.world.moves()?;
        let Some(m) = move_at(moves.as_slice(), leg.choice) else {
            unreachable!()
        };
        match self.world.take(&m, printed) {
            Ok(()) => {
                self.at += 1;
                Ok(())
            }
            Err(Stop::Fault(_)) => unreachable!(),
            Err(Stop::Memory) => {
                self.is_lost = true;
                Err(AllocError)
            }
        }
    }

    // Takes choices up to this many.
    fn go_on(&mut self, step: usize) -> Result<(), AllocError>
        requires found { self.old.is_lost ≡ false }
        requires ahead { self.old.at ≤ step }
        requires within { step ≤ length self.old.legs }
        ensures model { SameModel self.old self.new }
        ensures legs { self.new.legs ≡ self.old.legs }
        ensures ok { OnOk result (self.new.at ≡ step) }
        ensures found { OnOk result (self.new.is_lost ≡ false) }
    {
        let mut printed = Vec::new(*self.legs.allocator());
        for _at in self.at..step {
            printed.clear();
            self.step_on(&mut printed)?;
        }
        Ok(())
    }

    /// Goes to the state behind so many choices. Where memory is refused it stands on the way there, or where it stood.
    pub fn go_to(&mut self, step: usize) -> Result<(), AllocError>
        requires { step ≤ length self.old.legs }
        ensures model { SameModel self.old self.new }
        ensures legs { self.new.legs ≡ self.old.legs }
        ensures ok { OnOk result (self.new.at ≡ step) }
        ensures found { OnOk result (self.new.is_lost ≡ false) }
    {
        if self.is_lost || step < self.at {
            self.begin_again()?;
        }
        self.go_on(step)
    }

    /// Forgets the choices that are still to come.
    pub fn forget(&mut self)
        requires found { self.old.is_lost ≡ false }
        ensures model { SameModel self.old self.new }
        ensures legs { self.new.legs ≡ take self.old.at self.old.legs }
        ensures at { self.new.at ≡ self.old.at }
        ensures found { self.new.is_lost ≡ false }
    {
        self.legs.truncate(self.at);
    }

    /// Takes the move with this number, counted from 1, of the state where it stands, and appends what it prints. The choices that were to
    /// come stay where it is the next of them, and else are forgotten. A step that comes to a fault is not taken.
    pub fn choose(&mut self, choice: usize, printed: &mut Vec<u8>) -> Result<Went, AllocError>
        requires found { self.old.is_lost ≡ false }
        ensures model { SameModel self.old self.new }
        ensures nowhere { IfOk result (λ w. w ≡ Nowhere → self.new ≡ self.old) }
        ensures at { IfOk result (λ w. w ≡ On → self.new.at ≡ self.old.at + 1) }
        ensures on { IfOk result (λ w. w ≡ On → self.new.legs ≡ legs_behind self.old choice) }
        ensures fault { (f : Fault) → IfOk result (λ w. w ≡ Faults f → StandsAs self.old self.new) }
        ensures found { IfOk result (λ w. self.new.is_lost ≡ false) }
        ensures err { OnErr result (self.new.legs ≡ self.old.legs) }
    {
        let moves = self.world.moves()?;
        let Some(m) = move_at(moves.as_slice(), choice) else {
            return Ok(Went::Nowhere);
        };
        self.legs.reserve(1)?;
        match self.world.take(&m, printed) {
            Ok(()) => {
                let of = moves.len();
                put(&mut self.legs, self.at, Leg { choice, of });
                self.at += 1;
                Ok(Went::On)
            }
            Err(Stop::Fault(fault)) => {
                self.is_lost = true;
                self.go_to(self.at)?;
                Ok(Went::Faults(fault))
            }
            Err(Stop::Memory) => {
                self.is_lost = true;
                Err(AllocError)
            }
        }
    }
}
