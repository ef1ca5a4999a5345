//! The texts of places and of their numbers.

ghost use Rattle.std.specs.Prelude.{◌≡◌, ◌/◌, ◌++◌, length, OnOk, OnErr};
ghost use Rattle.std.specs.Io.{StartsWith};
ghost use Rattle.std.specs.Fmt.{decimal, signed_decimal};
ghost use Rattle.promela_run.specs.Lines.{name_of_number, worth, element, fields_path, path, place_line};

use itoa::Buffer;
use pml_program::form::Form;
use pml_program::program::Slot;
use pml_token::token::Token;
use pml_tree::tree::Scalar;
use run_layout::cells::remainder;
use run_layout::tables::Tables;
use run_layout::typedefs::Typedefs;
use std::alloc::AllocError;

/// Appends the mtype name with a number, counted from 1, or the number in decimal where there is none.
pub fn name_of_number(
    constants: &[Token<'_>],
    number: i32,
    text: &mut Vec<u8>,
) -> Result<(), AllocError>
    ensures added { OnOk result (text.new.items ≡ text.old.items ++ name_of_number constants.now number) }
    ensures kept { OnErr result (StartsWith text.new.items text.old.items) }
{
    if 0 < number {
        if let Some(name) = constants.get(number as usize - 1) {
            return text.extend_from_slice(name.text());
        }
    }
    let mut digits = Buffer::new();
    text.extend_from_slice(digits.format(number).as_bytes())
}

/// Appends a number as its type has it written: an mtype by name.
pub fn worth(
    constants: &[Token<'_>],
    form: Form,
    number: i32,
    text: &mut Vec<u8>,
) -> Result<(), AllocError>
    ensures added { OnOk result (text.new.items ≡ text.old.items ++ worth constants.now form number) }
    ensures kept { OnErr result (StartsWith text.new.items text.old.items) }
{
    if let Form::Plain(Scalar::Mtype) = form {
        name_of_number(constants, number, text)
    } else {
        let mut digits = Buffer::new();
        text.extend_from_slice(digits.format(number).as_bytes())
    }
}

// The element that a cell is in.
fn quotient(cell: usize, stride: u32) -> usize
    ensures { result ≡ cell / stride }
{
    if stride == 0 {
        0
    } else {
        cell / stride as usize
    }
}

// Appends a variable or a field at one of its cells.
fn element(slot: &Slot<'_>, cell: usize, text: &mut Vec<u8>) -> Result<(), AllocError>
    ensures added { OnOk result (text.new.items ≡ text.old.items ++ element slot.now cell) }
    ensures kept { OnErr result (StartsWith text.new.items text.old.items) }
{
    text.extend_from_slice(slot.name.text())?;
    if slot.array {
        let mut digits = Buffer::new();
        text.push(b'[')?;
        text.extend_from_slice(digits.format(quotient(cell, slot.stride)).as_bytes())?;
        text.push(b']')?;
    }
    Ok(())
}

// Appends the fields that lead to a cell within an element of a type.
fn fields_path(
    typedefs: &Typedefs<'_, '_>,
    form: Form,
    cell: usize,
    text: &mut Vec<u8>,
) -> Result<(), AllocError>
    ensures added { OnOk result (text.new.items ≡ text.old.items ++ fields_path typedefs.now (length typedefs.now) form cell) }
    ensures kept { OnErr result (StartsWith text.new.items text.old.items) }
{
    let mut form = form;
    let mut cell = cell;
    for _step in 0..typedefs.count() {
        let (typedef, number, within) = typedefs.place(form, cell);
        match typedefs.field(typedef, number) {
            None => return Ok(()),
            Some(field) => {
                text.push(b'.')?;
                element(field, within, text)?;
                form = field.form;
                cell = remainder(within, field.stride);
            }
        }
    }
    Ok(())
}

/// Appends the path of a cell of a variable, as `a[2]` or `r.f[1].g`.
pub fn path(
    tables: &Tables<'_, '_>,
    slot: &Slot<'_>,
    cell: usize,
    text: &mut Vec<u8>,
) -> Result<(), AllocError>
    ensures added { OnOk result (text.new.items ≡ text.old.items ++ path tables.now slot.now cell) }
    ensures kept { OnErr result (StartsWith text.new.items text.old.items) }
{
    element(slot, cell, text)?;
    let within = remainder(cell, slot.stride);
    fields_path(tables.typedefs(), slot.form, within, text)
}

/// Appends the path of a cell, its number and a line feed.
pub fn place_line(
    tables: &Tables<'_, '_>,
    slot: &Slot<'_>,
    cell: usize,
    number: i32,
    text: &mut Vec<u8>,
) -> Result<(), AllocError>
    ensures added { OnOk result (text.new.items ≡ text.old.items ++ place_line tables.now slot.now cell number) }
    ensures kept { OnErr result (StartsWith text.new.items text.old.items) }
{
    path(tables, slot, cell, text)?;
    text.extend_from_slice(b" = ")?;
    let (_, form) = tables.typedefs().leaf(slot, cell);
    worth(tables.program().constants.as_slice(), form, number, text)?;
    text.push(b'\n')?;
    Ok(())
}
