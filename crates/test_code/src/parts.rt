//! What the tests share: lists, a channel, names, variables and elements.
ghost use Rattle.std.specs.Prelude.{◌≡◌, [], ◌∷◌, IfOk, IfSome};
ghost use Rattle.pml_program.specs.declared.form.Form.TheVariants.{Plain};
ghost use Rattle.pml_tree.specs.declared.tree.Scalar.TheVariants.{Byte, Short};
ghost use Rattle.pml_value.specs.Takes.{IsIn};

use crate::beginnings::slot;
use diagnostics::{Fault, Stop};
use pml_channel::channel::Channel;
use pml_program::expr::{Expr, Target, Turn};
use pml_program::form::Form;
use pml_program::program::{Initial, Slot};
use pml_store::store::Store;
use pml_token::token::{Kind, Token};
use pml_tree::tree::{Infix, Scalar};
use pml_value::view::View;
use promela_process::place::Place;
use promela_run::goes::Goes;
use promela_run::live_channel::LiveChannel;
use sqlite_items::{Boxed, Items};
use std::alloc::{AllocError, Global};

/// These items.
pub fn all<T: Drop, const N: usize>(alloc: Global, items: [T; N]) -> Result<Items<T>, AllocError>
    ensures { IfOk result (λ it. it ≡ items) }
{
    match Vec::from_array(alloc, items) {
        Ok(items) => Ok(Items::from_vec(items)),
        Err(_) => Err(AllocError),
    }
}

/// A channel of three messages, each a byte and a short.
pub fn of_three(alloc: Global) -> Result<Channel, AllocError>
    ensures { IfOk result (λ c. c ≡ record { capacity = 3; types = Plain Byte ∷ Plain Short ∷ []; messages = [] }) }
{
    let types = [Form::Plain(Scalar::Byte), Form::Plain(Scalar::Short)];
    Ok(Channel::new(alloc, 3, all(alloc, types)?))
}

/// `1 / 0`.
pub fn quotient(alloc: Global) -> Result<Expr, AllocError> {
    let left = Boxed::new(alloc, Expr::Number(1))?;
    let right = Boxed::new(alloc, Expr::Number(0))?;
    Ok(Expr::Binary(Infix::Divide, left, right))
}

/// `mtype = { ack, nak }`: the last name has the number 1.
pub fn constants() -> [Token<'static>; 2] {
    [
        Token::new(Kind::Name, b"nak", 1),
        Token::new(Kind::Name, b"ack", 1),
    ]
}

/// What the only process reads.
pub fn seen<'w>(store: &'w Store, channels: &'w [LiveChannel]) -> View<'w>
    ensures store { result.store.now ≡ store.now }
    ensures channels { result.channels.now ≡ channels.now }
{
    View::new(store, channels, 0, 1, false)
}

/// Stores what a statement comes to.
pub fn taken(store: &mut Store, goes: Result<Option<Goes>, Fault>) -> Result<(), Stop>
    requires { IfOk goes (λ s. IfSome s (IsIn store.old.frames)) }
{
    match goes {
        Err(fault) => Err(Stop::Fault(fault)),
        Ok(None) => Ok(()),
        Ok(Some(goes)) => store.set(goes.place, goes.number).map_err(|_| Stop::Memory),
    }
}

/// A global variable.
pub fn variable(alloc: Global, variable: usize, word: Scalar) -> Target {
    Target {
        local: false,
        variable,
        form: Form::Plain(word),
        turns: Items::new(alloc),
    }
}

/// The global `q` holds 1, the number of the only channel; behind it are `x`, `i` and `a[2]`.
pub fn globals(alloc: Global) -> Result<Store, AllocError> {
    let mut store = Store::new(alloc, 5);
    store.push_frame(&[1, 1, 1, 2])?;
    let number = Place {
        frame: 0,
        variable: 0,
        cell: 0,
    };
    if store.size(0, 0) == 1 {
        store.set(number, 1)?;
    }
    store.forget();
    Ok(store)
}

/// The only channel.
pub fn only(channels: &[LiveChannel; 1]) -> &Channel {
    &channels[0].channel
}

/// An element of a local variable of bytes, whose cells begin at `offset`.
pub fn element(
    alloc: Global,
    variable: usize,
    offset: u32,
    length: u32,
    index: i32,
) -> Result<Target, AllocError> {
    let index = Boxed::new(alloc, Expr::Number(index))?;
    let turn = Turn {
        offset,
        length,
        stride: 1,
        index: Some(index),
    };
    Ok(Target {
        local: true,
        variable,
        form: Form::Plain(Scalar::Byte),
        turns: all(alloc, [turn])?,
    })
}

/// Two parameters, two elements of that typedef, its number, and how many processes live.
pub fn variables(alloc: Global) -> Result<Items<Slot<'static>>, AllocError> {
    let byte = Form::Plain(Scalar::Byte);
    let number = Initial::Value(Expr::Pid);
    let count = Initial::Value(Expr::ProcessCount);
    let slots = [
        slot(byte, 0, 1, 1, Initial::Zero),
        slot(Form::Plain(Scalar::Short), 1, 1, 1, Initial::Zero),
        slot(Form::Struct(9), 2, 2, 2, Initial::Zero),
        slot(byte, 6, 1, 1, number),
        slot(byte, 7, 1, 1, count),
    ];
    all(alloc, slots)
}
