//! First states of models that are refused, and one whose growths may be.
use crate::compare::same;
use crate::limits::within;
use crate::parts::{all, quotient};
use diagnostics::{Fault, Stop};
use pml_program::expr::Expr;
use pml_program::form::Form;
use pml_program::program::{Fields, Initial, Proctype, Program, Seq, Slot};
use pml_token::token::{Kind, Token};
use pml_tree::tree::Scalar;
use run_start::start::start;
use run_start::started::Started;
use sqlite_items::Items;
use std::alloc::{AllocError, Global};
use std::process::Abort;

/// A variable or a field of so many elements.
pub fn slot(form: Form, offset: u32, length: u32, stride: u32, initial: Initial) -> Slot<'static> {
    Slot {
        name: Token::new(Kind::Name, b"x", 1),
        form,
        array: true,
        offset,
        length,
        stride,
        initial,
    }
}

/// Channels with one field, a byte.
fn channels(alloc: Global, capacity: u32) -> Result<Initial, AllocError> {
    let types = all(alloc, [Form::Plain(Scalar::Byte)])?;
    Ok(Initial::Channel(capacity, types))
}

/// The first state of a model that is within its limits.
fn first_state(alloc: Global, program: &Program<'_>) -> Result<Started, Stop> {
    match within(program) {
        Some(()) => start(alloc, program),
        None => Err(Stop::Memory),
    }
}

/// How many cells it has.
fn first_cells(alloc: Global, program: &Program<'_>) -> Result<usize, Stop> {
    let started = first_state(alloc, program)?;
    Ok(started.store.cells().len())
}

/// The same of a model with these globals, typedefs and proctypes.
fn begun(
    alloc: Global,
    globals: Items<Slot<'static>>,
    typedefs: Items<Fields<'static>>,
    proctypes: Items<Proctype<'static>>,
) -> Result<usize, Stop> {
    let program = Program {
        globals,
        constants: Items::new(alloc),
        typedefs,
        proctypes,
    };
    first_cells(alloc, &program)
}

/// The first state of a model without a process is this fault.
fn is_fault<R: Abort>(
    rt: &R,
    alloc: Global,
    typedefs: Items<Fields<'static>>,
    globals: Items<Slot<'static>>,
    fault: Fault,
) {
    let found = begun(alloc, globals, typedefs, Items::new(alloc));
    let wanted = Err(Stop::Fault(fault));
    same(rt, "a first state", "its fault", found, wanted);
}

/// So many channels, and a byte whose initialiser is a fault.
fn fields<R: Abort>(rt: &R, alloc: Global, made: u32) -> Items<Slot<'static>> {
    let channel = channels(alloc, 0).expect(rt, "channels");
    let bad = quotient(alloc).expect(rt, "a quotient");
    let byte = Form::Plain(Scalar::Byte);
    let channel = slot(Form::Plain(Scalar::Chan), 0, made, 1, channel);
    let byte = slot(byte, made, 1, 1, Initial::Value(bad));
    all(alloc, [channel, byte]).expect(rt, "the fields")
}

/// A variable of a typedef with these fields.
fn is_fault_of_a_field<R: Abort>(rt: &R, alloc: Global, made: u32, fault: Fault) {
    let fields = fields(rt, alloc, made);
    let typedefs = all(alloc, [Fields { owner: 9, fields }]).expect(rt, "the typedefs");
    let cells = made.saturating_add(1);
    let slots = all(alloc, [slot(Form::Struct(9), 0, 1, cells, Initial::Zero)]);
    is_fault(rt, alloc, typedefs, slots.expect(rt, "the globals"), fault);
}

/// A field's fault is told where the first cell of it begins: behind 255 channels, and not behind 256.
static FIELDS: [(u32, Fault); 2] = [(255, Fault::ZeroDivisor), (256, Fault::TooManyChannels)];

#[test]
fn a_fault_of_a_field(rt: HostRuntime) {
    for (made, fault) in &FIELDS {
        is_fault_of_a_field(&rt, rt.alloc(), *made, *fault);
    }
}

/// Behind these variables 256 channels, of which one is too many.
fn is_fault_of_variables<R: Abort>(
    rt: &R,
    alloc: Global,
    mut slots: Items<Slot<'static>>,
    fault: Fault,
) {
    let channel = channels(alloc, 0).expect(rt, "channels");
    slots
        .push(slot(Form::Plain(Scalar::Chan), 1, 256, 1, channel))
        .expect(rt, "channels");
    is_fault(rt, alloc, Items::new(alloc), slots, fault);
}

/// The first fault ends it.
#[test]
fn a_fault(rt: HostRuntime) {
    let alloc = rt.alloc();
    let bad = quotient(alloc).expect(&rt, "a quotient");
    let int = Form::Plain(Scalar::Int);
    let slots = all(alloc, [slot(int, 0, 1, 1, Initial::Value(bad))]);
    let slots = slots.expect(&rt, "the globals");
    is_fault_of_variables(&rt, alloc, slots, Fault::ZeroDivisor);
}

/// The 256th channel is a fault.
#[test]
fn a_channel_too_many(rt: HostRuntime) {
    let alloc = rt.alloc();
    is_fault_of_variables(&rt, alloc, Items::new(alloc), Fault::TooManyChannels);
}

/// A byte of 7 and a channel.
fn typedef_fields(alloc: Global) -> Result<Items<Slot<'static>>, AllocError> {
    let byte = Form::Plain(Scalar::Byte);
    let seven = Initial::Value(Expr::Number(7));
    let channel = channels(alloc, 0)?;
    let channel = slot(Form::Plain(Scalar::Chan), 1, 1, 1, channel);
    all(alloc, [slot(byte, 0, 1, 1, seven), channel])
}

/// A typedef of these.
fn typedefs(alloc: Global) -> Result<Items<Fields<'static>>, AllocError> {
    let fields = typedef_fields(alloc)?;
    all(alloc, [Fields { owner: 9, fields }])
}

/// The number of a process, and how many live by then.
fn process_variables(alloc: Global) -> Result<Items<Slot<'static>>, AllocError> {
    let byte = Form::Plain(Scalar::Byte);
    let pid = slot(byte, 0, 1, 1, Initial::Value(Expr::Pid));
    let count = slot(byte, 1, 1, 1, Initial::Value(Expr::ProcessCount));
    all(alloc, [pid, count])
}

/// A proctype of these that starts twice.
fn proctypes(alloc: Global) -> Result<Items<Proctype<'static>>, AllocError> {
    let proctype = Proctype {
        name: Token::new(Kind::Name, b"p", 2),
        owner: 1,
        starts: 2,
        parameters: 0,
        variables: process_variables(alloc)?,
        body: Seq {
            steps: Items::new(alloc),
        },
        end: Token::new(Kind::Name, b"p", 3),
    };
    all(alloc, [proctype])
}

/// The model of these, with two globals of the typedef.
fn begun_with(
    alloc: Global,
    typedefs: Items<Fields<'static>>,
    proctypes: Items<Proctype<'static>>,
) -> Result<usize, Stop> {
    match all(alloc, [slot(Form::Struct(9), 0, 2, 2, Initial::Zero)]) {
        Ok(globals) => begun(alloc, globals, typedefs, proctypes),
        Err(_) => Err(Stop::Memory),
    }
}

fn begun_with_typedefs(alloc: Global, typedefs: Items<Fields<'static>>) -> Result<usize, Stop> {
    match proctypes(alloc) {
        Ok(proctypes) => begun_with(alloc, typedefs, proctypes),
        Err(_) => Err(Stop::Memory),
    }
}

/// How many cells the first state has of a model with that typedef, two globals of it, and that proctype.
pub fn begun_whole(alloc: Global) -> Result<usize, Stop> {
    match typedefs(alloc) {
        Ok(typedefs) => begun_with_typedefs(alloc, typedefs),
        Err(_) => Err(Stop::Memory),
    }
}
