//! What the fields of typedefs begin with, found once.

ghost use Rattle.std.specs.Prelude.{◌≡◌, ◌<◌, IfOk, map, slice_get, slice_index_or};
ghost use Rattle.std.specs.Option.{option_copied};
ghost use Rattle.run_layout.specs.Tables.{field_by};
ghost use Rattle.promela_run.specs.State.{initial_value, unread};
ghost use Rattle.run_start.specs.Known.{is_zero, are_zero, have_no_initials, known, known_fields, known_in, known_cells};

use diagnostics::Fault;
use pml_eval::clip::clip;
use pml_eval::eval::eval;
use pml_program::expr::Expr;
use pml_program::form::Form;
use pml_program::program::{Fields, Initial, Program, Slot};
use pml_store::store::Store;
use pml_value::view::View;
use promela_run::beginning::Beginning;
use run_layout::cursor::Cursor;
use run_layout::tables::Tables;
use run_layout::typedefs::Typedefs;
use sqlite_items::Items;
use std::alloc::{AllocError, Global};
use std::marker::Model;

/// What a type keeps of the value of a field's initialiser.
pub fn constant(alloc: Global, value: &Expr, form: Form) -> Result<i32, Fault>
    ensures { result ≡ initial_value value.now form unread }
{
    let store = Store::new(alloc, 0);
    let view = View::new(&store, &[], 0, 0, false);
    let number = eval(value, &view)?;
    Ok(clip(form, number))
}

/// What a field begins with.
fn known(alloc: Global, slot: &Slot<'_>) -> Beginning
    ensures { result ≡ known slot.now }
{
    match &slot.initial {
        Initial::Zero => Beginning::Nothing,
        Initial::Value(value) => match constant(alloc, value, slot.form) {
            Ok(number) => Beginning::Number(number),
            Err(fault) => Beginning::Fails(fault),
        },
        Initial::Channel(_, _) => Beginning::Channel,
    }
}

/// What each of these fields begins with.
fn known_fields(alloc: Global, fields: &[Slot<'_>]) -> Result<Items<Beginning>, AllocError>
    ensures { IfOk result (λ row. row ≡ map known fields.now) }
{
    let mut row = Items::new(alloc);
    for field in fields {
        row.push(known(alloc, field))?;
    }
    Ok(row)
}

/// The same of each typedef.
fn known_typedefs(
    alloc: Global,
    typedefs: &[Fields<'_>],
) -> Result<Vec<Items<Beginning>>, AllocError>
    ensures { IfOk result (λ rows. rows.items ≡ map known_fields typedefs.now) }
{
    let mut rows = Vec::new(alloc);
    for fields in typedefs {
        rows.push(known_fields(alloc, fields.fields.as_slice())?)?;
    }
    Ok(rows)
}

pub fn is_zero(initial: &Initial) -> bool
    ensures { result ≡ is_zero initial.now }
{
    match initial {
        Initial::Zero => true,
        _ => false,
    }
}

fn are_zero(fields: &[Slot<'_>]) -> bool
    ensures { result ≡ are_zero fields.now }
{
    for field in fields {
        if !is_zero(&field.initial) {
            return false;
        }
    }
    true
}

/// Whether no field of a typedef has an initialiser.
fn have_no_initials(typedefs: &[Fields<'_>]) -> bool
    ensures { result ≡ have_no_initials typedefs.now }
{
    for fields in typedefs {
        if !are_zero(fields.fields.as_slice()) {
            return false;
        }
    }
    true
}

/// The tables of a model, and what the fields of its typedefs begin with. Contracts see the model.
#[derive(Drop)]
pub struct Beginnings<'p, 'a> {
    tables: Tables<'p, 'a>,
    rows: Vec<Items<Beginning>>,
    zeroed: bool,
}

impl<'p, 'a> Model for Beginnings<'p, 'a> {
    ghost use Rattle.std.specs.Prelude.{[]};
    ghost use Rattle.std.specs.Coded.{codes};
    ghost use mir.Syntax.{named};
    ghost use Rattle.pml_program.specs.declared.program.Program.{Program};
    ghost use Rattle.pml_program.specs.contracts.expr.Expr as worth;
    ghost use Rattle.pml_program.specs.contracts.program.Seq as seq;
    ghost use Rattle.run_start.specs.Known.{AreBeginnings};

    ghost Value = { Program };

    ghost coded = { Prim.hlevel (codes, worth.the_row.coded, (seq.the_row (record { mir = named 0; lft = [] })).coded) };

    ghost view = { λ b. b.tables };

    ghost invariant = { λ b. AreBeginnings b.tables.typedefs b.rows.items b.zeroed };
}

impl<'p, 'a> Beginnings<'p, 'a> {
    /// The tables of a model, and what the fields of its typedefs begin with.
    pub fn new(alloc: Global, program: &'p Program<'a>) -> Result<Beginnings<'p, 'a>, AllocError>
        ensures { IfOk result (λ b. b ≡ program.now) }
    {
        let rows = known_typedefs(alloc, program.typedefs.as_slice())?;
        let zeroed = have_no_initials(program.typedefs.as_slice());
        let tables = Tables::new(alloc, program)?;
        Ok(Beginnings {
            tables,
            rows,
            zeroed,
        })
    }

    /// Whether no field of a typedef has an initialiser.
    pub fn are_nothing(&self) -> bool
        ensures { result ≡ have_no_initials self.now.typedefs }
    {
        self.zeroed
    }

    /// The tables.
    pub fn tables(&self) -> &Tables<'p, 'a>
        ensures { result.now ≡ self.now }
    {
        &self.tables
    }

    /// The typedefs.
    pub fn typedefs(&self) -> &Typedefs<'p, 'a>
        ensures { result.now ≡ self.now.typedefs }
    {
        self.tables.typedefs()
    }

    /// What is known of the field with this number, of the typedef with this number.
    fn field(&self, typedef: usize, field: usize) -> Option<Beginning>
        ensures { result ≡ slice_get (known_in (slice_get self.now.typedefs typedef)) field }
    {
        match self.rows.get(typedef) {
            Some(row) => row.as_slice().get(field).copied(),
            None => None,
        }
    }

    /// What a cell of a variable begins with, by the place of the field that it is in.
    fn cell(&self, alloc: Global, slot: &Slot<'_>, place: Option<(usize, usize)>) -> Beginning
        ensures { result ≡ known (field_by self.now.typedefs slot.now place) }
    {
        match place {
            None => known(alloc, slot),
            Some((typedef, field)) => match self.field(typedef, field) {
                Some(beginning) => beginning,
                None => known(alloc, slot),
            },
        }
    }

    /// What each cell of an element of a variable begins with, in one cursor over its cells.
    pub fn element(&self, alloc: Global, slot: &Slot<'_>) -> Result<Vec<Beginning>, AllocError>
        ensures { IfOk result (λ cells. cells.items ≡ known_cells self.now.typedefs slot.now slot.now.stride) }
    {
        let mut cursor = Cursor::new(alloc, self.typedefs(), slot);
        let mut cells = Vec::new(alloc);
        for cell in 0..slot.stride as usize {
            let place = cursor.place(cell)?;
            cells.push(self.cell(alloc, slot, place))?;
        }
        Ok(cells)
    }
}
