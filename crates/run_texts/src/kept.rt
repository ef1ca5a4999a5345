//! Texts of offers that are kept, so that they need not be composed again.

ghost use Rattle.std.specs.Prelude.{◌≡◌, ◌<◌, ◌++◌, true, Some, IfSome, OnOk, OnErr, codes, slice_get};
ghost use Rattle.std.specs.Io.{StartsWith};
ghost use Rattle.std.specs.Option.{option_copied};
ghost use Rattle.promela_run.specs.World.{pick_text, move_text};
ghost use Rattle.run_state.specs.Standing.{stand_of};

use crate::texts::{add_death, add_pick, proctype_of};
use pml_program::program::Program;
use promela_run::moves::{Move, Pick};
use run_state::live::Live;
use run_state::seat::{Seat, seat_at};
use std::alloc::{AllocError, Global};
use std::cell::Cell;
use std::marker::Model;

/// So many texts are kept at most.
const PLACES: usize = 1024;

/// A text of more bytes is composed each time.
const MOST_BYTES: usize = 512;

/// The text of an offer of a process that stands there.
#[derive(Drop)]
pub struct KeptText {
    pick: Pick,
    seat: Seat,
    text: Vec<u8>,
}

/// The texts that are kept of a model, where each place has its text among them, and what was asked for and not kept.
#[derive(Drop)]
pub struct KeptTexts<'p, 'a> {
    program: &'p Program<'a>,
    texts: Vec<KeptText>,
    places: Vec<u16>,
    missed: Cell<Option<Pick>>,
}

impl<'p, 'a> Model for KeptTexts<'p, 'a> {
    ghost use Rattle.std.specs.Prelude.{[]};
    ghost use Rattle.std.specs.Coded.{codes};
    ghost use mir.Syntax.{named};
    ghost use Rattle.pml_program.specs.declared.program.Program.{Program};
    ghost use Rattle.pml_program.specs.contracts.expr.Expr as worth;
    ghost use Rattle.pml_program.specs.contracts.program.Seq as seq;
    ghost use Rattle.pml_program.specs.contracts.program.Basic as basic;
    ghost use Rattle.run_texts.specs.Kept.{AreTexts};

    ghost Value = { Program };

    ghost coded = { Prim.hlevel (codes, worth.the_row.coded, (seq.the_row (record { mir = named 0; lft = [] })).coded, (basic.the_row (record { mir = named 0; lft = [] })).coded) };

    ghost view = { λ k. k.program.now };

    ghost invariant = { λ k. AreTexts k.program.now k.texts.items };
}

/// The place of an offer of a process that stands there.
#[inline(always)]
fn place_of(seat: Seat, pick: Pick) -> usize
    ensures { result < PLACES }
{
    let process = pick.process.wrapping_mul(37);
    let node = seat.node.wrapping_mul(5);
    process.wrapping_add(node).wrapping_add(pick.place) % PLACES
}

fn number_at(places: &[u16], place: usize) -> Option<&u16>
    ensures { option_copied result ≡ slice_get places.now place }
{
    places.get(place)
}

fn text_at(texts: &[KeptText], number: usize) -> Option<&KeptText>
    ensures { option_copied result ≡ slice_get texts.now number }
{
    texts.get(number)
}

/// Whether it is the text of this offer of a process that stands there.
#[inline(always)]
fn is_of(kept: &KeptText, seat: Seat, pick: Pick) -> bool
    ensures pick { result ≡ true → kept.now.pick ≡ pick }
    ensures seat { result ≡ true → kept.now.seat ≡ seat }
{
    kept.pick.process == pick.process
        && kept.pick.place == pick.place
        && kept.pick.level == pick.level
        && kept.seat.node == seat.node
        && kept.seat.sort == seat.sort
}

impl<'p, 'a> KeptTexts<'p, 'a> {
    /// None of a model.
    pub fn new(alloc: Global, program: &'p Program<'a>) -> Self
        ensures { result ≡ program.now }
    {
        KeptTexts {
            program,
            texts: Vec::new(alloc),
            places: Vec::new(alloc),
            missed: Cell::new(None),
        }
    }

    /// The text of the offer that a pick names, if it is kept.
    #[inline(always)]
    fn get<'k>(live: &Live<'_, '_>, known: &'k Self, pick: Pick) -> Option<&'k [u8]>
        requires { known.now ≡ live.now.state.program }
        ensures { IfSome result (λ text. text.now ≡ pick_text live.now.state pick) }
    {
        let seat = *seat_at(live.seats(), pick.process)?;
        let number = *number_at(known.places.as_slice(), place_of(seat, pick))?;
        let one = text_at(known.texts.as_slice(), usize::from(number))?;
        if !is_of(one, seat, pick) {
            return None;
        }
        Some(one.text.as_slice())
    }

    /// Appends the text of the offer that a pick names, which is not kept, and remembers the pick if it may be.
    #[inline(never)]
    fn add_missed(
        live: &Live<'_, '_>,
        known: &Self,
        pick: Pick,
        text: &mut Vec<u8>,
    ) -> Result<(), AllocError>
        ensures added { OnOk result (text.new.items ≡ text.old.items ++ pick_text live.now.state pick) }
        ensures kept { OnErr result (StartsWith text.new.items text.old.items) }
    {
        let begin = text.len();
        add_pick(live, pick, text)?;
        if text.len().saturating_sub(begin) <= MOST_BYTES && known.texts.len() < PLACES {
            known.missed.set(Some(pick));
        }
        Ok(())
    }

    /// Appends the text of the offer that a pick names.
    #[inline(always)]
    pub fn add(
        live: &Live<'_, '_>,
        known: &Self,
        pick: Pick,
        text: &mut Vec<u8>,
    ) -> Result<(), AllocError>
        requires { known.now ≡ live.now.state.program }
        ensures added { OnOk result (text.new.items ≡ text.old.items ++ pick_text live.now.state pick) }
        ensures kept { OnErr result (StartsWith text.new.items text.old.items) }
    {
        match Self::get(live, known, pick) {
            Some(bytes) => text.extend_from_slice(bytes),
            None => Self::add_missed(live, known, pick, text),
        }
    }

    // Keeps the text of the offer that a pick names, of a process that stands there, if its place is free.
    fn keep_at(
        live: &Live<'_, '_>,
        known: &mut Self,
        seat: Seat,
        pick: Pick,
    ) -> Result<(), AllocError>
        requires model { known.old ≡ live.now.state.program }
        requires there { slice_get live.now.state.stands pick.process ≡ Some (stand_of live.now.state.program seat) }
        ensures { known.new ≡ known.old }
    {
        let place = place_of(seat, pick);
        let number = known.texts.len();
        if number >= PLACES || place >= known.places.len() || known.places[place] != u16::MAX {
            return Ok(());
        }
        let mut text = Vec::new(*known.texts.allocator());
        add_pick(live, pick, &mut text)?;
        known.texts.push(KeptText { pick, seat, text })?;
        known.places[place] = number as u16;
        Ok(())
    }

    // Keeps the text of the offer that a pick names, if memory is not refused.
    #[inline(never)]
    fn keep(live: &Live<'_, '_>, known: &mut Self, pick: Pick) -> Result<(), AllocError>
        requires { known.old ≡ live.now.state.program }
        ensures { known.new ≡ known.old }
    {
        known.missed.set(None);
        if known.places.is_empty() {
            known.places.resize(PLACES, u16::MAX)?;
        }
        match seat_at(live.seats(), pick.process) {
            Some(seat) => Self::keep_at(live, known, *seat, pick),
            None => Ok(()),
        }
    }

    /// Keeps the text that was last appended and was not kept.
    #[inline(always)]
    pub fn keep_missed(live: &Live<'_, '_>, known: &mut Self)
        requires { known.old ≡ live.now.state.program }
        ensures { known.new ≡ known.old }
    {
        if let Some(pick) = known.missed.get() {
            let _ = Self::keep(live, known, pick);
        }
    }

    /// Appends the texts of the offers of a sender and of a receiver.
    #[inline(never)]
    #[tactic(auto, using(crate::proofs::Keeping::kept_behind))]
    fn add_pair(
        live: &Live<'_, '_>,
        known: &Self,
        sender: Pick,
        receiver: Pick,
        text: &mut Vec<u8>,
    ) -> Result<(), AllocError>
        requires { known.now ≡ live.now.state.program }
        ensures added { let s = live.now.state in
            OnOk result (text.new.items ≡ text.old.items ++ (pick_text s sender ++ (codes " -> " ++ pick_text s receiver))) }
        ensures kept { OnErr result (StartsWith text.new.items text.old.items) }
    {
        Self::add(live, known, sender, text)?;
        text.extend_from_slice(b" -> ")?;
        Self::add(live, known, receiver, text)
    }

    /// Appends the text of a move.
    #[inline(always)]
    pub fn add_move(
        live: &Live<'_, '_>,
        known: &Self,
        m: Move,
        text: &mut Vec<u8>,
    ) -> Result<(), AllocError>
        requires { known.now ≡ live.now.state.program }
        ensures added { OnOk result (text.new.items ≡ text.old.items ++ move_text live.now.state m) }
        ensures kept { OnErr result (StartsWith text.new.items text.old.items) }
    {
        match m {
            Move::Death(process) => add_death(process, proctype_of(live, process), text),
            Move::Alone(pick, _) => Self::add(live, known, pick, text),
            Move::Pair(sender, receiver, _) => Self::add_pair(live, known, sender, receiver, text),
        }
    }
}
