//! The fields that lead to a cell.

ghost use Rattle.std.specs.Prelude.{◌≡◌, IfOk, slice_get, length, map};
ghost use Rattle.std.specs.Option.{option_copied};
ghost use Rattle.promela_run.specs.State.{slot_of, cell_of, fields_of, leaf};
ghost use Rattle.run_layout.specs.Tables.{AreNumbers, fields, fields_in, field_by};

use crate::cells::remainder;
use crate::layout::Layout;
use pml_program::form::Form;
use pml_program::program::{Fields, Slot};
use std::alloc::{AllocError, Global};
use std::collections::BTreeMap;
use std::marker::Model;

/// Typedefs, the layout of the fields of each, and the number of each by its owner. Contracts see the typedefs.
#[derive(Drop)]
pub struct Typedefs<'p, 'a> {
    typedefs: &'p [Fields<'a>],
    layouts: Vec<Layout<'p, 'a>>,
    numbers: BTreeMap<usize, usize>,
}

impl<'p, 'a> Model for Typedefs<'p, 'a> {
    ghost use Rattle.std.specs.Prelude.{List, map};
    ghost use Rattle.pml_program.specs.declared.program.Fields.{Fields};
    ghost use Rattle.pml_program.specs.contracts.expr.Expr as worth;
    ghost use Rattle.std.specs.Coded.{codes};
    ghost use Rattle.run_layout.specs.Tables.{AreTables};

    ghost Value = { List Fields };

    ghost coded = { Prim.hlevel (codes, worth.the_row.coded) };

    ghost view = { λ t. t.typedefs.now };

    ghost invariant = { λ t. AreTables t.typedefs.now t.layouts.items t.numbers };
}

/// The layout of the fields of each typedef.
fn layouts_of<'p, 'a>(
    alloc: Global,
    typedefs: &'p [Fields<'a>],
) -> Result<Vec<Layout<'p, 'a>>, AllocError>
    ensures { IfOk result (λ layouts. layouts.items ≡ map fields typedefs.now) }
{
    let mut layouts = Vec::new(alloc);
    for fields in typedefs {
        layouts.push(Layout::new(alloc, fields.fields.as_slice())?)?;
    }
    Ok(layouts)
}

/// The number of the first typedef of each owner.
fn numbers_of(alloc: Global, typedefs: &[Fields<'_>]) -> Result<BTreeMap<usize, usize>, AllocError>
    ensures { IfOk result (AreNumbers typedefs.now typedefs.now) }
{
    let mut numbers = BTreeMap::new(alloc);
    let mut left = typedefs.len();
    while 0 < left {
        left -= 1;
        numbers.insert(typedefs[left].owner, left)?;
    }
    Ok(numbers)
}

impl<'p, 'a> Typedefs<'p, 'a> {
    /// The tables of these typedefs.
    pub fn new(alloc: Global, typedefs: &'p [Fields<'a>]) -> Result<Typedefs<'p, 'a>, AllocError>
        ensures { IfOk result (λ tables. tables ≡ typedefs.now) }
    {
        let layouts = layouts_of(alloc, typedefs)?;
        let numbers = numbers_of(alloc, typedefs)?;
        Ok(Typedefs {
            typedefs,
            layouts,
            numbers,
        })
    }

    /// How many there are.
    pub fn count(&self) -> usize
        ensures { result ≡ length self.now }
    {
        self.typedefs.len()
    }

    /// The number of the typedef whose fields a type has. Where it has none, the number may be one that none has.
    fn number(&self, form: Form) -> usize
        ensures { fields_in (slice_get self.now result) ≡ fields_of self.now form }
    {
        match form {
            Form::Struct(owner) => match self.numbers.get(&owner) {
                Some(number) => *number,
                None => self.count(),
            },
            _ => self.count(),
        }
    }

    /// The field of a type with this cell, by its typedef's number and its own, and the number of the cell in it.
    pub fn place(&self, form: Form, cell: usize) -> (usize, usize, usize)
        ensures field { slice_get (fields_in (slice_get self.now result.0)) result.1 ≡ slot_of (fields_of self.now form) cell }
        ensures cell { result.2 ≡ cell_of (fields_of self.now form) cell }
    {
        let number = self.number(form);
        match self.layouts.get(number) {
            Some(layout) => {
                let (field, within) = layout.number(cell);
                (number, field, within)
            }
            None => (number, 0, cell),
        }
    }

    /// The field with this number, of the typedef with this number.
    pub fn field(&self, typedef: usize, field: usize) -> Option<&Slot<'a>>
        ensures { option_copied result ≡ slice_get (fields_in (slice_get self.now typedef)) field }
    {
        match self.typedefs.get(typedef) {
            Some(fields) => fields.fields.as_slice().get(field),
            None => None,
        }
    }

    /// The field of no typedef's type that a cell of a variable is in, by its typedef's number and its own (none, where it is the
    /// variable itself), and its type.
    pub fn leaf(&self, slot: &Slot<'_>, cell: usize) -> (Option<(usize, usize)>, Form)
        ensures place { field_by self.now slot.now result.0 ≡ leaf self.now slot.now cell }
        ensures form { result.1 ≡ (leaf self.now slot.now cell).form }
    {
        let mut found = None;
        let mut form = slot.form;
        let mut cell = remainder(cell, slot.stride);
        for _step in 0..self.count() {
            let (typedef, number, within) = self.place(form, cell);
            match self.field(typedef, number) {
                None => return (found, form),
                Some(field) => {
                    found = Some((typedef, number));
                    form = field.form;
                    cell = remainder(within, field.stride);
                }
            }
        }
        (found, form)
    }
}
