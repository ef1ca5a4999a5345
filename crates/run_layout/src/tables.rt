//! Where the variables of a model lie.

ghost use Rattle.std.specs.Prelude.{◌≡◌, IfOk, map, slice_get};
ghost use Rattle.std.specs.Option.{option_copied};
ghost use Rattle.promela_run.specs.State.{slot_of, cell_of};
ghost use Rattle.run_layout.specs.Numbers.{number_in};
ghost use Rattle.run_layout.specs.Tables.{variables, slots_of};

use crate::layout::Layout;
use crate::typedefs::Typedefs;
use pml_program::program::{Proctype, Program, Slot};
use std::alloc::{AllocError, Global};
use std::marker::Model;

/// A model, and the layouts of its globals, of the variables of each proctype, and of the fields of its typedefs. Contracts see the
/// model.
#[derive(Drop)]
pub struct Tables<'p, 'a> {
    program: &'p Program<'a>,
    typedefs: Typedefs<'p, 'a>,
    globals: Layout<'p, 'a>,
    locals: Vec<Layout<'p, 'a>>,
}

impl<'p, 'a> Model for Tables<'p, 'a> {
    ghost use Rattle.pml_program.specs.declared.program.Program.{Program};
    ghost use Rattle.pml_program.specs.contracts.expr.Expr as worth;
    ghost use Rattle.pml_program.specs.contracts.program.Seq as seq;
    ghost use Rattle.std.specs.Coded.{codes};
    ghost use Rattle.std.specs.Prelude.{[]};
    ghost use mir.Syntax.{named};
    ghost use Rattle.run_layout.specs.Tables.{AreLayouts};

    ghost Value = { Program };

    ghost coded = { Prim.hlevel (codes, worth.the_row.coded, (seq.the_row (record { mir = named 0; lft = [] })).coded) };

    ghost view = { λ t. t.program.now };

    ghost invariant = { λ t. AreLayouts t.program.now t.typedefs t.globals t.locals.items };
}

// The layout of the variables of each proctype.
fn layouts_of<'p, 'a>(
    alloc: Global,
    proctypes: &'p [Proctype<'a>],
) -> Result<Vec<Layout<'p, 'a>>, AllocError>
    ensures { IfOk result (λ layouts. layouts.items ≡ map variables proctypes.now) }
{
    let mut layouts = Vec::new(alloc);
    for proctype in proctypes {
        layouts.push(Layout::new(alloc, proctype.variables.as_slice())?)?;
    }
    Ok(layouts)
}

impl<'p, 'a> Tables<'p, 'a> {
    /// The tables of a model.
    pub fn new(alloc: Global, program: &'p Program<'a>) -> Result<Tables<'p, 'a>, AllocError>
        ensures { IfOk result (λ tables. tables ≡ program.now) }
    {
        let typedefs = Typedefs::new(alloc, program.typedefs.as_slice())?;
        let globals = Layout::new(alloc, program.globals.as_slice())?;
        let locals = layouts_of(alloc, program.proctypes.as_slice())?;
        Ok(Tables {
            program,
            typedefs,
            globals,
            locals,
        })
    }

    /// The model.
    pub fn program(&self) -> &'p Program<'a>
        ensures { result.now ≡ self.now }
    {
        self.program
    }

    /// Its typedefs.
    pub fn typedefs(&self) -> &Typedefs<'p, 'a>
        ensures { result.now ≡ self.now.typedefs }
    {
        &self.typedefs
    }

    /// The global variable with the cell of this index, and the number of the cell in it, or among the cells of the processes.
    pub fn find_global(&self, at: usize) -> (Option<&'p Slot<'a>>, usize)
        ensures slot { option_copied result.0 ≡ slot_of self.now.globals at }
        ensures cell { result.1 ≡ cell_of self.now.globals at }
    {
        self.globals.find(at)
    }

    /// The same among the variables of a proctype, by its number in the model.
    pub fn find_local(&self, sort: usize, at: usize) -> (Option<&'p Slot<'a>>, usize)
        ensures slot { option_copied result.0 ≡ slot_of (slots_of (slice_get self.now.proctypes sort)) at }
        ensures cell { result.1 ≡ cell_of (slots_of (slice_get self.now.proctypes sort)) at }
    {
        match self.locals.get(sort) {
            Some(layout) => layout.find(at),
            None => (None, at),
        }
    }

    /// The number of the global variable with the cell of this index, if one has it, and the number of the cell in it, or among the
    /// cells of the processes.
    pub fn number_global(&self, at: usize) -> (Option<usize>, usize)
        ensures number { result.0 ≡ number_in self.now.globals at }
        ensures cell { result.1 ≡ cell_of self.now.globals at }
    {
        self.globals.place(at)
    }

    /// The same among the variables of a proctype, by its number in the model.
    pub fn number_local(&self, sort: usize, at: usize) -> (Option<usize>, usize)
        ensures number { result.0 ≡ number_in (slots_of (slice_get self.now.proctypes sort)) at }
        ensures cell { result.1 ≡ cell_of (slots_of (slice_get self.now.proctypes sort)) at }
    {
        match self.locals.get(sort) {
            Some(layout) => layout.place(at),
            None => (None, at),
        }
    }
}
