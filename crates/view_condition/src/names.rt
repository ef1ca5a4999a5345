//! What is declared under a name.

ghost use Rattle.std.specs.Prelude.{◌<◌, length, IfSome};

use pml_program::form::Form;
use pml_program::program::{Fields, Proctype, Slot};
use pml_token::token::Token;

/// A variable or a field, by its number among its owner's, as it is declared.
#[derive(Clone, Copy, Debug, PartialEq, Eq)]
pub struct DeclaredVariable {
    pub number: usize,
    pub form: Form,
    pub array: bool,
    pub offset: u32,
    pub length: u32,
    pub stride: u32,
}

/// The variable or the field with this name.
pub fn declared_as(slots: &[Slot<'_>], name: &[u8]) -> Option<DeclaredVariable>
    ensures { IfSome result (λ s. s.number < length slots.now) }
{
    for number in 0..slots.len() {
        let slot = &slots[number];
        if slot.name.text() == name {
            return Some(DeclaredVariable {
                number,
                form: slot.form,
                array: slot.array,
                offset: slot.offset,
                length: slot.length,
                stride: slot.stride,
            });
        }
    }
    None
}

/// The field with this name of a type.
pub fn field_named(typedefs: &[Fields<'_>], form: Form, name: &[u8]) -> Option<DeclaredVariable> {
    let Form::Struct(owner) = form else {
        return None;
    };
    for fields in typedefs {
        if fields.owner == owner {
            return declared_as(fields.fields.as_slice(), name);
        }
    }
    None
}

/// The number of the mtype name.
pub fn constant_named(constants: &[Token<'_>], name: &[u8]) -> Option<i32> {
    let mut number = 0i32;
    for constant in constants {
        number = number.saturating_add(1);
        if constant.text() == name {
            return Some(number);
        }
    }
    None
}

/// The number of the proctype with this name.
pub fn sort_named(proctypes: &[Proctype<'_>], name: &[u8]) -> Option<usize>
    ensures { IfSome result (λ k. k < length proctypes.now) }
{
    for sort in 0..proctypes.len() {
        if proctypes[sort].name.text() == name {
            return Some(sort);
        }
    }
    None
}
