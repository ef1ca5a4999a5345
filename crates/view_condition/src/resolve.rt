//! An expression of a condition, with its names replaced by what they stand for. A name is looked up once.

ghost use Rattle.std.specs.Prelude.{◌≡◌, ◌∷◌, ◌++◌, [], IfOk, OnOk, length};

use crate::base::{Base, NamedVariable, base_of};
use crate::names::{DeclaredVariable, field_named};
use crate::places::{LABEL, LINE};
use crate::subject::StateSubject;
use crate::unread::{Flaw, Unread, flawed};
use check_uses::arithmetic::{negative, value};
use pml_program::expr::{Expr, Target, Turn, Want};
use pml_program::form::Form;
use pml_token::token::Token;
use pml_tree::tree::{Argument, Expr as TreeExpr, Reference, Scalar, Sign, Step};
use promela_model::mark::Constant;
use run_state::live::Live;
use sqlite_items::{Boxed, Items};
use std::alloc::{AllocError, Global};
use view_cells::cells::is_chan;

// The number that a token is, behind a sign.
fn literal(token: &Token<'_>, sign: Sign) -> Result<i32, Unread> {
    let number = value(token.text());
    let signed = match sign {
        Sign::Plus => number,
        Sign::Minus => negative(number),
    };
    match signed {
        Constant::Is(number) => Ok(number),
        _ => Err(flawed(Flaw::Number, token.line())),
    }
}

// The number that the next variable of a condition has, which is this.
fn numbered(subject: StateSubject, subjects: &mut Vec<StateSubject>) -> Result<usize, AllocError>
    ensures number { IfOk result (λ n. n ≡ length subjects.old.items) }
    ensures added { OnOk result (subjects.new.items ≡ subjects.old.items ++ subject ∷ []) }
{
    let number = subjects.len();
    subjects.push(subject)?;
    Ok(number)
}

// A fact, as a variable.
fn fact_read(
    alloc: Global,
    subject: StateSubject,
    subjects: &mut Vec<StateSubject>,
) -> Result<Expr, AllocError> {
    let mut turns = Items::new(alloc);
    turns.push(Turn {
        offset: 0,
        length: 1,
        stride: 1,
        index: None,
    })?;
    Ok(Expr::Read(Target {
        local: false,
        variable: numbered(subject, subjects)?,
        form: Form::Plain(Scalar::Bit),
        turns,
    }))
}

/// The index of a variable or a field, which an array has and nothing else.
#[cycle(resolve)]
fn index<'w>(
    alloc: Global,
    is_array: bool,
    step: &'w Step<'_>,
    live: &'w Live<'_, '_>,
    subjects: &mut Vec<StateSubject>,
) -> Result<Option<Boxed<Expr>>, Unread> {
    match &step.index {
        None => {
            if is_array {
                return Err(flawed(Flaw::Array, step.name.line()));
            }
            Ok(None)
        }
        Some(e) => {
            if !is_array {
                return Err(flawed(Flaw::Index, step.name.line()));
            }
            Ok(Some(boxed(alloc, e.get(), live, subjects)?))
        }
    }
}

/// The turn of a variable, from its first cell on, or of a field.
#[cycle(resolve)]
fn turn<'w>(
    alloc: Global,
    declared: DeclaredVariable,
    step: &'w Step<'_>,
    live: &'w Live<'_, '_>,
    subjects: &mut Vec<StateSubject>,
) -> Result<Turn, Unread> {
    let index = index(alloc, declared.array, step, live, subjects)?;
    Ok(Turn {
        offset: declared.offset,
        length: declared.length,
        stride: declared.stride,
        index,
    })
}

// What is reached of a variable: the type there, and the variable that the next name names, where that is found.
#[derive(Clone, Copy)]
struct Reached {
    form: Form,
    next: Option<DeclaredVariable>,
}

// What is wrong where no field has a name, which may be of a place.
fn no_field(name: &[u8]) -> Flaw {
    if name == LINE || name == LABEL {
        Flaw::Place
    } else {
        Flaw::Field
    }
}

// What a name behind what is reached is declared as.
fn declared_by<'w>(
    reached: Reached,
    name: &'w Token<'_>,
    live: &'w Live<'_, '_>,
) -> Result<DeclaredVariable, Unread> {
    if let Some(declared) = reached.next {
        return Ok(declared);
    }
    let typedefs = live.program().typedefs.as_slice();
    match field_named(typedefs, reached.form, name.text()) {
        Some(declared) => Ok(declared),
        None => Err(flawed(no_field(name.text()), name.line())),
    }
}

/// Adds the turns of names that stand behind what is reached. The type that they lead to.
#[cycle(resolve)]
fn through<'w>(
    alloc: Global,
    reached: Reached,
    steps: &'w [Step<'_>],
    live: &'w Live<'_, '_>,
    subjects: &mut Vec<StateSubject>,
    turns: &mut Items<Turn>,
) -> Result<Form, Unread> {
    let mut here = reached;
    for step in steps {
        let declared = declared_by(here, &step.name, live)?;
        turns.push(turn(alloc, declared, step, live, subjects)?)?;
        here = Reached {
            form: declared.form,
            next: None,
        };
    }
    Ok(here.form)
}

/// Adds the turns of a variable of the globals, which the first name of a reference names. The type that they lead to.
#[cycle(resolve)]
fn global_turns<'w>(
    alloc: Global,
    declared: DeclaredVariable,
    r: &'w Reference<'_>,
    live: &'w Live<'_, '_>,
    subjects: &mut Vec<StateSubject>,
    turns: &mut Items<Turn>,
) -> Result<Form, Unread> {
    turns.push(turn(alloc, declared, &r.first, live, subjects)?)?;
    let reached = Reached {
        form: declared.form,
        next: None,
    };
    let steps = r.fields.as_slice();
    through(alloc, reached, steps, live, subjects, turns)
}

/// The place that a reference leads to, whose first names are found.
#[cycle(resolve)]
fn target<'w>(
    alloc: Global,
    found: NamedVariable,
    r: &'w Reference<'_>,
    live: &'w Live<'_, '_>,
    subjects: &mut Vec<StateSubject>,
) -> Result<Target, Unread> {
    let declared = found.whole();
    let mut turns = Items::new(alloc);
    let form = if found.is_local() {
        let reached = Reached {
            form: Form::Unknown,
            next: Some(declared),
        };
        let steps = r.fields.as_slice();
        through(alloc, reached, steps, live, subjects, &mut turns)?
    } else {
        global_turns(alloc, declared, r, live, subjects, &mut turns)?
    };
    if let Form::Struct(_) = form {
        return Err(flawed(Flaw::Structure, r.first.name.line()));
    }
    let variable = numbered(found.subject, subjects)?;
    Ok(Target {
        local: false,
        variable,
        form,
        turns,
    })
}

/// What a reference is worth.
#[cycle(resolve)]
fn read<'w>(
    alloc: Global,
    r: &'w Reference<'_>,
    live: &'w Live<'_, '_>,
    subjects: &mut Vec<StateSubject>,
) -> Result<Expr, Unread> {
    match base_of(alloc, r, live)? {
        Base::Number(number) => Ok(Expr::Number(number)),
        Base::ProcessCount => Ok(Expr::ProcessCount),
        Base::Fact(subject) => Ok(fact_read(alloc, subject, subjects)?),
        Base::Variable(found) => Ok(Expr::Read(target(alloc, found, r, live, subjects)?)),
    }
}

/// The place that a reference leads to.
#[cycle(resolve)]
fn placed<'w>(
    alloc: Global,
    r: &'w Reference<'_>,
    live: &'w Live<'_, '_>,
    subjects: &mut Vec<StateSubject>,
) -> Result<Target, Unread> {
    match base_of(alloc, r, live)? {
        Base::Variable(found) => target(alloc, found, r, live, subjects),
        _ => Err(flawed(Flaw::Channel, r.first.name.line())),
    }
}

/// A channel that is asked.
#[cycle(resolve)]
fn channel<'w>(
    alloc: Global,
    r: &'w Reference<'_>,
    live: &'w Live<'_, '_>,
    subjects: &mut Vec<StateSubject>,
) -> Result<Boxed<Target>, Unread> {
    let place = placed(alloc, r, live, subjects)?;
    if !is_chan(place.form) {
        return Err(flawed(Flaw::Channel, r.first.name.line()));
    }
    Ok(Boxed::new(alloc, place)?)
}

/// What a name asks of a field of a message.
#[cycle(resolve)]
fn into<'w>(
    alloc: Global,
    r: &'w Reference<'_>,
    live: &'w Live<'_, '_>,
    subjects: &mut Vec<StateSubject>,
) -> Result<Want, Unread> {
    if r.first.name.text() == b"_".as_slice() {
        return Ok(Want::Anything);
    }
    if let Base::Number(number) = base_of(alloc, r, live)? {
        return Ok(Want::Exactly(number));
    }
    Ok(Want::Into(placed(alloc, r, live, subjects)?))
}

#[cycle(resolve)]
fn want<'w>(
    alloc: Global,
    argument: &'w Argument<'_>,
    live: &'w Live<'_, '_>,
    subjects: &mut Vec<StateSubject>,
) -> Result<Want, Unread> {
    match argument {
        Argument::Exactly(sign, token) => Ok(Want::Exactly(literal(token, *sign)?)),
        Argument::Fixed(truth) => Ok(Want::Exactly(if *truth { 1 } else { 0 })),
        Argument::Eval(e) => Ok(Want::Equal(boxed(alloc, e.get(), live, subjects)?)),
        Argument::Into(r) => into(alloc, r, live, subjects),
    }
}

#[cycle(resolve)]
fn wants<'w>(
    alloc: Global,
    arguments: &'w [Argument<'_>],
    live: &'w Live<'_, '_>,
    subjects: &mut Vec<StateSubject>,
) -> Result<Items<Want>, Unread> {
    let mut found = Items::new(alloc);
    for argument in arguments {
        found.push(want(alloc, argument, live, subjects)?)?;
    }
    Ok(found)
}

/// An expression, in a box.
#[cycle(resolve)]
fn boxed<'w>(
    alloc: Global,
    e: &'w TreeExpr<'_>,
    live: &'w Live<'_, '_>,
    subjects: &mut Vec<StateSubject>,
) -> Result<Boxed<Expr>, Unread> {
    let worth = resolved(alloc, e, live, subjects)?;
    Ok(Boxed::new(alloc, worth)?)
}

/// An expression with its names replaced; what its variables are is added.
#[cycle(resolve)]
pub fn resolved<'w>(
    alloc: Global,
    e: &'w TreeExpr<'_>,
    live: &'w Live<'_, '_>,
    subjects: &mut Vec<StateSubject>,
) -> Result<Expr, Unread> {
    match e {
        TreeExpr::Number(token) => Ok(Expr::Number(literal(token, Sign::Plus)?)),
        TreeExpr::Truth(truth) => Ok(Expr::Number(if *truth { 1 } else { 0 })),
        TreeExpr::Timeout => Ok(Expr::Timeout),
        TreeExpr::Read(r) => read(alloc, r, live, subjects),
        TreeExpr::Ask(fill, r) => Ok(Expr::Ask(*fill, channel(alloc, r, live, subjects)?)),
        TreeExpr::Poll(r, search, arguments) => {
            let at = channel(alloc, r, live, subjects)?;
            let asked = wants(alloc, arguments.as_slice(), live, subjects)?;
            Ok(Expr::Poll(at, *search, asked))
        }
        TreeExpr::Unary(op, a) => Ok(Expr::Unary(*op, boxed(alloc, a.get(), live, subjects)?)),
        TreeExpr::Binary(op, a, b) => {
            let left = boxed(alloc, a.get(), live, subjects)?;
            let right = boxed(alloc, b.get(), live, subjects)?;
            Ok(Expr::Binary(*op, left, right))
        }
        TreeExpr::Choice(a, b, c) => {
            let condition = boxed(alloc, a.get(), live, subjects)?;
            let one = boxed(alloc, b.get(), live, subjects)?;
            let other = boxed(alloc, c.get(), live, subjects)?;
            Ok(Expr::Choice(condition, one, other))
        }
    }
}
