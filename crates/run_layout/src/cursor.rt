//! The ways to the cells of a variable, each from where it parts from the one before.

ghost use Rattle.std.specs.Prelude.{◌≡◌, ◌≤◌, ◌<◌, ◌-◌, ◌^◌, IfOk, IfNone, IfSome};
ghost use Rattle.promela_run.specs.State.{leaf};
ghost use Rattle.run_layout.specs.Tables.{field_by};
ghost use Rattle.run_layout.specs.Cursor.{IsOnWay};

use crate::cells::{remainder, size};
use crate::typedefs::Typedefs;
use pml_program::form::Form;
use pml_program::program::Slot;
use std::alloc::{AllocError, Global};
use std::marker::Model;

/// A field on the way to a cell, by its typedef's number and its own (none, where it is the variable itself), its type and how many
/// cells its elements have. Its cells from the one with number `within` on are those of the variable from `first` to `last`. At most
/// `following` fields come behind it on the way.
#[derive(Clone, Copy)]
pub struct Stage {
    place: Option<(usize, usize)>,
    form: Form,
    stride: u32,
    within: usize,
    first: usize,
    last: usize,
    following: usize,
}

/// How many cells follow this one among so many.
fn behind(count: usize, cell: usize) -> usize
    ensures { result ≡ count - cell - 1 }
{
    count.saturating_sub(cell).saturating_sub(1)
}

/// A cursor over the cells of a variable: it remembers the way to the cell that was asked for last. Contracts see the typedefs and the
/// variable.
#[derive(Drop)]
pub struct Cursor<'w, 'p, 'a, 's> {
    typedefs: &'w Typedefs<'p, 'a>,
    slot: &'w Slot<'s>,
    stages: Vec<Stage>,
}

impl<'w, 'p, 'a, 's> Model for Cursor<'w, 'p, 'a, 's> {
    ghost use Rattle.std.specs.List.{All};
    ghost use Rattle.pml_program.specs.contracts.expr.Expr as worth;
    ghost use Rattle.std.specs.Coded.{codes};
    ghost use Rattle.run_layout.specs.Cursor.{Walked, IsOnWay};

    ghost Value = { Walked };

    ghost coded = { Prim.hlevel (codes, worth.the_row.coded) };

    ghost view = { λ w. record { typedefs = w.typedefs.now; slot = w.slot.now } };

    ghost invariant = { λ w. All (IsOnWay w.typedefs.now w.slot.now) w.stages.items };
}

impl<'w, 'p, 'a, 's> Cursor<'w, 'p, 'a, 's> {
    /// A cursor over the cells of this variable.
    pub fn new(
        alloc: Global,
        typedefs: &'w Typedefs<'p, 'a>,
        slot: &'w Slot<'s>,
    ) -> Cursor<'w, 'p, 'a, 's>
        ensures { result ≡ record { typedefs = typedefs.now; slot = slot.now } }
    {
        Cursor {
            typedefs,
            slot,
            stages: Vec::new(alloc),
        }
    }

    /// The variable itself, which is on the way to each of its cells.
    fn start(&self) -> Stage
        ensures way { IsOnWay self.now.typedefs self.now.slot result }
        ensures first { result.first ≡ 0 }
        ensures last { result.last ≡ 2 ^ 64 - 1 }
    {
        Stage {
            place: None,
            form: self.slot.form,
            stride: self.slot.stride,
            within: 0,
            first: 0,
            last: usize::MAX,
            following: self.typedefs.count(),
        }
    }

    /// The last field on the remembered way that is on the way to this cell, too. Those behind it are forgotten.
    fn back(&mut self, cell: usize) -> Stage
        ensures same { self.new ≡ self.old }
        ensures way { IsOnWay self.old.typedefs self.old.slot result }
        ensures first { result.first ≤ cell }
        ensures last { cell ≤ result.last }
    {
        while !self.stages.is_empty() {
            let stage = self.stages[self.stages.len() - 1];
            if stage.first <= cell && cell <= stage.last {
                return stage;
            }
            self.stages.pop();
        }
        self.start()
    }

    /// The next field on the way to a cell, if there is one.
    fn next(&self, stage: Stage, cell: usize) -> Option<Stage>
        requires way { IsOnWay self.now.typedefs self.now.slot stage }
        requires first { stage.first ≤ cell }
        requires last { cell ≤ stage.last }
        ensures way { IfSome result (IsOnWay self.now.typedefs self.now.slot) }
        ensures first { IfSome result (λ next. next.first ≤ cell) }
        ensures last { IfSome result (λ next. cell ≤ next.last) }
        ensures fewer { IfSome result (λ next. next.following < stage.following) }
        ensures end { IfNone result (field_by self.now.typedefs self.now.slot stage.place ≡ leaf self.now.typedefs self.now.slot cell) }
    {
        if stage.following == 0 {
            return None;
        }
        let at = remainder(stage.within + (cell - stage.first), stage.stride);
        let (typedef, number, within) = self.typedefs.place(stage.form, at);
        let field = match self.typedefs.field(typedef, number) {
            Some(field) => field,
            None => return None,
        };
        let more = behind(size(field), within).min(behind(stage.stride as usize, at));
        Some(Stage {
            place: Some((typedef, number)),
            form: field.form,
            stride: field.stride,
            within,
            first: cell,
            last: stage.last.min(cell.saturating_add(more)),
            following: stage.following - 1,
        })
    }

    /// The field of no typedef's type that a cell of the variable is in, by its typedef's number and its own (none, where it is the
    /// variable itself). The cursor goes back as far as it must from the cell before, and on from there.
    pub fn place(&mut self, cell: usize) -> Result<Option<(usize, usize)>, AllocError>
        ensures same { self.new ≡ self.old }
        ensures place { IfOk result (λ place. field_by self.old.typedefs self.old.slot place ≡ leaf self.old.typedefs self.old.slot cell) }
    {
        let mut stage = self.back(cell);
        while let Some(next) = self.next(stage, cell) {
            self.stages.push(next)?;
            stage = next;
        }
        Ok(stage.place)
    }
}
