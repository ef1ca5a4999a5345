//! Names that stand twice, and names that are not declared.

ghost use Rattle.std.specs.Prelude.{◌≡◌, true, IfSome, IfOk};
ghost use Rattle.explain_condition.specs.Causes.{is_twice, is_unknown};
ghost use Rattle.explain_condition.specs.Told as told_of;

use crate::near::{InScope, nearest, nearest_word};
use crate::sign::{
    Lookup, NamedMark, Saying, behind, first_name, front, is_declared, meaning, place_of_name,
    sign_at, steps_at,
};
use crate::walk::{ReferenceEnd, name_at, walk_behind};
use check_names::meaning::is_special;
use explain_cause::cause::{Finding, NameSort, Named, Reason, TwiceCause, UnknownCause};
use explain_cause::foreign::Foreign;
use explain_cause::place::{at_place, untold};
use explain_cause::words::foreign_word;
use promela_model::mark::{Mark, Shape};
use std::alloc::{AllocError, Global};

/// Of a name that is declared before already.
fn again<'t>(name: Named<'t>, first: Named<'t>) -> TwiceCause<'t> {
    if name.name == b"init".as_slice() {
        TwiceCause::Init(first)
    } else {
        TwiceCause::Again(name, first)
    }
}

/// Of a name that is declared behind these marks.
fn twice<'t>(text: &'t [u8], before: &[Mark<'_>], sign: NamedMark<'t>) -> Option<TwiceCause<'t>> {
    let name = sign.name;
    if is_special(name.name) {
        return Some(TwiceCause::Special(name.name));
    }
    match first_name(text, before, Lookup::Declared(sign.owner), name.name) {
        Some(first) => Some(again(name, first)),
        None => None,
    }
}

fn told_twice<'t>(name: Named<'t>, cause: Option<TwiceCause<'t>>) -> Finding<'t>
    ensures { is_twice result.cause ≡ true }
{
    match cause {
        Some(cause) => at_place(place_of_name(name), Reason::Twice(cause)),
        None => untold(),
    }
}

/// Of a name that is declared twice, the second time by the mark at `at`.
pub fn of_twice<'t>(text: &'t [u8], marks: &[Mark<'_>], at: usize) -> Finding<'t>
    ensures { is_twice result.cause ≡ true }
{
    let sign = sign_at(text, marks, at);
    let cause = if is_declared(sign.matter) {
        twice(text, front(marks, at), sign)
    } else {
        None
    };
    told_twice(sign.name, cause)
}

/// A name that is not declared, and what is told of it.
#[derive(Clone, Copy)]
struct Unknown<'t> {
    name: Named<'t>,
    cause: UnknownCause<'t>,
}

/// Where a name that is no variable stands otherwise.
fn no_variable<'t>(
    text: &'t [u8],
    marks: &[Mark<'_>],
    owner: usize,
    name: &[u8],
) -> Option<UnknownCause<'t>> {
    match first_name(text, marks, Lookup::Label(owner), name) {
        Some(label) => Some(UnknownCause::Instead(label, NameSort::Label)),
        None => match first_name(text, marks, Lookup::Local, name) {
            Some(local) => Some(UnknownCause::Elsewhere(local)),
            None => None,
        },
    }
}

/// The declaration of a name behind its use.
fn later<'t>(text: &'t [u8], behind: &[Mark<'_>], owner: usize, name: &[u8]) -> Option<Named<'t>> {
    match first_name(text, behind, Lookup::Declared(owner), name) {
        Some(own) => Some(own),
        None => first_name(text, behind, Lookup::Declared(0), name),
    }
}

/// Where a name that is not declared in front of its use is declared all the same.
fn declared_otherwise<'t>(
    text: &'t [u8],
    marks: &[Mark<'_>],
    at: usize,
    name: &[u8],
    wish: InScope,
) -> Option<UnknownCause<'t>> {
    match later(text, behind(marks, at), wish.owner, name) {
        Some(first) => Some(UnknownCause::Later(first)),
        None => {
            if matches!(wish.sort, NameSort::Variable) {
                no_variable(text, marks, wish.owner, name)
            } else {
                None
            }
        }
    }
}

/// How many marks may declare what is wanted: a proctype may be declared behind its use.
fn declaring(all: usize, at: usize, sort: NameSort) -> usize
    ensures { result ≡ told_of.declaring all at sort }
{
    match sort {
        NameSort::Proctype => all,
        _ => at,
    }
}

/// Whether a word of another language may as well be a variable that was not declared, as `lock` or `size`.
fn is_thing(foreign: Foreign) -> bool
    ensures { result ≡ told_of.is_thing foreign }
{
    matches!(
        foreign,
        Foreign::Lock
            | Foreign::Length
            | Foreign::Array
            | Foreign::Channel
            | Foreign::Message
            | Foreign::Process
            | Foreign::Print
            | Foreign::Random
            | Foreign::Cases
            | Foreign::Record
            | Foreign::Number
            | Foreign::To
            | Foreign::LabelName
    )
}

/// What a name of a sort is meant for, where it is a word of another language.
fn meant_for(name: &[u8], sort: NameSort) -> Option<Foreign> {
    match foreign_word(name) {
        Some(foreign) if matches!(sort, NameSort::Variable) && is_thing(foreign) => None,
        Some(Foreign::Body) if matches!(sort, NameSort::Variable) => Some(Foreign::Leave),
        foreign => foreign,
    }
}

/// Of a name that is declared nowhere and has none near it: a word of another language, or one that is near to a word of this one.
fn no_name<'t>(
    alloc: Global,
    name: &'t [u8],
    sort: NameSort,
) -> Result<UnknownCause<'t>, AllocError> {
    if let Some(foreign) = meant_for(name, sort) {
        return Ok(UnknownCause::Foreign(name, foreign));
    }
    match nearest_word(alloc, name)? {
        Some(word) => Ok(UnknownCause::Word(name, word)),
        None => Ok(UnknownCause::Nowhere(sort, name, None)),
    }
}

/// Of a name that is declared nowhere.
fn nowhere<'t>(
    alloc: Global,
    text: &'t [u8],
    seen: &[Mark<'_>],
    name: Named<'t>,
    wish: InScope,
) -> Result<Option<Unknown<'t>>, AllocError>
    ensures { IfOk result (λ found. IfSome found (λ unknown. unknown.name.offset ≡ name.entry.offset)) }
{
    let cause = match nearest(alloc, text, seen, wish, name.name)? {
        Some(near) => UnknownCause::Nowhere(wish.sort, name.name, Some(near)),
        None => no_name(alloc, name.name, wish.sort)?,
    };
    Ok(Some(Unknown { name, cause }))
}

/// Of a name that is declared behind its use, or around it, as a typedef round its own fields.
fn of_later<'t>(name: Named<'t>, cause: UnknownCause<'t>) -> Unknown<'t>
    ensures { result.name.offset ≡ name.entry.offset }
{
    let cause = match cause {
        UnknownCause::Later(first) if first.offset < name.offset => UnknownCause::Itself(first),
        cause => cause,
    };
    Unknown { name, cause }
}

/// Of a name that is not declared in front of its use.
fn of_missing<'t>(
    alloc: Global,
    text: &'t [u8],
    marks: &[Mark<'_>],
    at: usize,
    name: Named<'t>,
    wish: InScope,
) -> Result<Option<Unknown<'t>>, AllocError>
    ensures { IfOk result (λ found. IfSome found (λ unknown. unknown.name.offset ≡ name.entry.offset)) }
{
    match declared_otherwise(text, marks, at, name.name, wish) {
        Some(cause) => Ok(Some(of_later(name, cause))),
        None => {
            let seen = front(marks, declaring(marks.len(), at, wish.sort));
            nowhere(alloc, text, seen, name, wish)
        }
    }
}

/// Of a field that is lacking in a typedef.
fn no_field<'t>(
    alloc: Global,
    text: &'t [u8],
    marks: &[Mark<'_>],
    name: Named<'t>,
    holder: Named<'t>,
    owner: usize,
) -> Result<Option<Unknown<'t>>, AllocError>
    ensures { IfOk result (λ found. IfSome found (λ unknown. unknown.name.offset ≡ name.entry.offset)) }
{
    let sort = NameSort::Field;
    let near = nearest(alloc, text, marks, InScope { sort, owner }, name.name)?;
    let cause = UnknownCause::Field(name.name, holder, near);
    Ok(Some(Unknown { name, cause }))
}

/// Of a field that is lacking among these.
fn of_lacking<'t>(
    alloc: Global,
    text: &'t [u8],
    marks: &[Mark<'_>],
    name: Named<'t>,
    owner: usize,
) -> Result<Option<Unknown<'t>>, AllocError>
    ensures { IfOk result (λ found. IfSome found (λ unknown. unknown.name.offset ≡ name.entry.offset)) }
{
    match first_name(text, marks, Lookup::Fields(owner), b"") {
        Some(holder) => no_field(alloc, text, marks, name, holder, owner),
        None => Ok(None),
    }
}

/// Of a variable of which a field is named that is lacking.
fn of_field<'t>(
    alloc: Global,
    text: &'t [u8],
    marks: &[Mark<'_>],
    at: usize,
    owner: usize,
    steps: &[Shape<'_>],
) -> Result<Option<Unknown<'t>>, AllocError> {
    match walk_behind(alloc, front(marks, at), owner, steps)?.end {
        ReferenceEnd::Lacking(number, fields) => {
            of_lacking(alloc, text, marks, name_at(text, steps, number), fields)
        }
        _ => Ok(None),
    }
}

/// Of a proctype or a typedef, where a variable is wanted.
fn instead<'t>(
    text: &'t [u8],
    marks: &[Mark<'_>],
    name: Named<'t>,
    sort: NameSort,
) -> Option<Unknown<'t>>
    ensures { IfSome result (λ unknown. unknown.name.offset ≡ name.entry.offset) }
{
    match first_name(text, marks, Lookup::Declared(0), name.name) {
        Some(first) => {
            let cause = UnknownCause::Instead(first, sort);
            Some(Unknown { name, cause })
        }
        None => None,
    }
}

/// Of a reference whose name or field is not declared.
fn of_use<'t>(
    alloc: Global,
    text: &'t [u8],
    marks: &[Mark<'_>],
    at: usize,
    owner: usize,
    steps: &[Shape<'_>],
) -> Result<Option<Unknown<'t>>, AllocError> {
    let name = name_at(text, steps, 0);
    match meaning(text, marks, at, owner, name.name) {
        Saying::Variable => of_field(alloc, text, marks, at, owner, steps),
        Saying::Field => of_field(alloc, text, marks, at, owner, steps),
        Saying::Proctype(_) => Ok(instead(text, marks, name, NameSort::Proctype)),
        Saying::Typedef(_) => Ok(instead(text, marks, name, NameSort::Typedef)),
        _ => {
            let sort = NameSort::Variable;
            of_missing(alloc, text, marks, at, name, InScope { sort, owner })
        }
    }
}

fn unknown_at<'t>(
    alloc: Global,
    text: &'t [u8],
    marks: &[Mark<'_>],
    at: usize,
) -> Result<Option<Unknown<'t>>, AllocError> {
    let sign = sign_at(text, marks, at);
    let owner = sign.owner;
    match sign.matter {
        Saying::Reference(_) => of_use(alloc, text, marks, at, owner, steps_at(marks, at)),
        Saying::Wanted => {
            let sort = NameSort::Typedef;
            of_missing(alloc, text, marks, at, sign.name, InScope { sort, owner })
        }
        Saying::Run(_) => {
            let sort = NameSort::Proctype;
            of_missing(alloc, text, marks, at, sign.name, InScope { sort, owner })
        }
        _ => Ok(None),
    }
}

fn told(unknown: Option<Unknown<'_>>) -> Finding<'_>
    ensures { is_unknown result.cause ≡ true }
{
    match unknown {
        Some(found) => at_place(place_of_name(found.name), Reason::Unknown(found.cause)),
        None => untold(),
    }
}

/// Of a name that is not declared, in the mark at `at`.
pub fn of_unknown<'t>(
    alloc: Global,
    text: &'t [u8],
    marks: &[Mark<'_>],
    at: usize,
) -> Result<Finding<'t>, AllocError>
    ensures { IfOk result (λ found. is_unknown found.cause ≡ true) }
{
    match unknown_at(alloc, text, marks, at) {
        Ok(unknown) => Ok(told(unknown)),
        Err(AllocError) => Err(AllocError),
    }
}
