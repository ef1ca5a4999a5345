//! What the first names of a reference lead to.

ghost use Rattle.std.specs.Prelude.{◌≡◌, None, IfOk, IfSome};
ghost use Rattle.view_condition.specs.declared.subject.StateSubject.TheVariants.{Local};

use crate::names::{DeclaredVariable, constant_named, declared_as, sort_named};
use crate::places::{LABEL, LINE};
use crate::subject::{Spot, StateSubject, TypedProcess};
use crate::unread::{Flaw, Unread, flawed};
use check_uses::arithmetic::read;
use pml_tree::tree::{Expr, Reference, Step};
use run_state::live::Live;
use std::alloc::Global;
use view_cells::processes::is_standing_line;
use view_labels::labels::node_of_label;
use view_labels::lines::can_stand_at;

/// A variable that is named, and as what it is declared.
#[derive(Clone, Copy)]
pub struct NamedVariable {
    pub subject: StateSubject,
    pub declared: DeclaredVariable,
}

impl NamedVariable {
    /// Whether it is of a process.
    pub fn is_local(self) -> bool {
        matches!(self.subject, StateSubject::Local(_, _))
    }

    /// The variable from its first cell on.
    pub fn whole(self) -> DeclaredVariable
        ensures { result.offset ≡ 0 }
    {
        DeclaredVariable {
            offset: 0,
            ..self.declared
        }
    }
}

/// What the first names of a reference lead to.
#[derive(Clone, Copy)]
pub enum Base {
    Number(i32),
    ProcessCount,
    /// Whether somebody stands at a line.
    Fact(StateSubject),
    /// A variable of the globals, or one of a process, which the first of the fields names.
    Variable(NamedVariable),
}

// The index of a step, where that is a number alone.
fn number_in(step: &Step<'_>) -> Option<u32> {
    let index = step.index.as_ref()?;
    match index.get() {
        Expr::Number(token) => read(token.text()),
        _ => None,
    }
}

// Where that number stands.
fn place_in(step: &Step<'_>) -> u32 {
    match &step.index {
        Some(index) => match index.get() {
            Expr::Number(token) => token.line(),
            _ => step.name.line(),
        },
        None => step.name.line(),
    }
}

// The index of a step, where that is a number alone, and where it stands.
#[derive(Clone, Copy)]
struct StepIndex {
    number: Option<u32>,
    place: u32,
}

fn index_in(step: &Step<'_>) -> StepIndex {
    StepIndex {
        number: number_in(step),
        place: place_in(step),
    }
}

// Where the first of these steps stands, if there is one.
fn first_line(steps: &[Step<'_>]) -> Option<u32> {
    match steps {
        [first, ..] => Some(first.name.line()),
        [] => None,
    }
}

// That somebody stands at a line, whoever it is; nothing may stand behind it.
fn line_fact(live: &Live<'_, '_>, index: StepIndex, behind: Option<u32>) -> Result<Base, Unread>
    ensures { IfOk result (λ _. behind ≡ None) }
{
    if let Some(line) = behind {
        return Err(flawed(Flaw::Field, line));
    }
    match index.number {
        Some(line) if is_standing_line(live, line) => Ok(Base::Fact(StateSubject::Line(line))),
        Some(_) => Err(flawed(Flaw::Line, index.place)),
        None => Err(flawed(Flaw::Number, index.place)),
    }
}

// Who is named: processes of the proctype with this number, or the one with that number of these.
#[derive(Clone, Copy)]
struct Named {
    sort: usize,
    whose: Option<TypedProcess>,
}

impl Named {
    // That who is named stands there.
    fn at(self, spot: Spot) -> Base {
        match self.whose {
            Some(whose) => Base::Fact(StateSubject::At(whose, spot)),
            None => Base::Fact(StateSubject::Any(self.sort, spot)),
        }
    }
}

// That who is named stands at a line; nothing may stand behind it.
fn at_line(
    live: &Live<'_, '_>,
    named: Named,
    index: StepIndex,
    behind: Option<u32>,
) -> Result<Base, Unread>
    ensures { IfOk result (λ _. behind ≡ None) }
{
    if let Some(line) = behind {
        return Err(flawed(Flaw::Field, line));
    }
    match index.number {
        Some(line) if can_stand_at(live, named.sort, line) => Ok(named.at(Spot::Line(line))),
        Some(line) if is_standing_line(live, line) => { Err(flawed(Flaw::OtherLine, index.place)) }
        Some(_) => Err(flawed(Flaw::Line, index.place)),
        None => Err(flawed(Flaw::Number, index.place)),
    }
}

// A label that is named, and where.
#[derive(Clone, Copy)]
struct LabelName<'n> {
    text: &'n [u8],
    line: u32,
}

// The label that these steps name; nothing may stand behind it.
fn label_in<'n>(steps: &'n [Step<'_>]) -> Result<LabelName<'n>, Unread> {
    let [label, behind @ ..] = steps else {
        return Err(flawed(Flaw::Short, u32::MAX));
    };
    if let [field, ..] = behind {
        return Err(flawed(Flaw::Field, field.name.line()));
    }
    if label.index.is_some() {
        return Err(flawed(Flaw::Index, label.name.line()));
    }
    Ok(LabelName {
        text: label.name.text(),
        line: label.name.line(),
    })
}

// That who is named stands at a label.
fn at_label(
    alloc: Global,
    live: &Live<'_, '_>,
    named: Named,
    label: LabelName<'_>,
) -> Result<Base, Unread> {
    match node_of_label(alloc, live, named.sort, label.text)? {
        Some(node) => Ok(named.at(Spot::Node(node))),
        None => Err(flawed(Flaw::Label, label.line)),
    }
}

// The process that is named by its proctype, of this number, and its own.
fn whose_of(sort: usize, step: &Step<'_>) -> Result<TypedProcess, Unread>
    ensures { IfOk result (λ whose. whose.sort ≡ sort) }
{
    match number_in(step) {
        Some(number) => match u8::try_from(number) {
            Ok(process) => Ok(TypedProcess { process, sort }),
            Err(_) => Err(flawed(Flaw::Process, step.name.line())),
        },
        None => Err(flawed(Flaw::Process, step.name.line())),
    }
}

// Who is named by a proctype, with or without the number of a process.
fn named_by(sort: usize, step: &Step<'_>) -> Result<Named, Unread>
    ensures { IfOk result (λ named. named.sort ≡ sort) }
{
    let whose = match &step.index {
        Some(_) => Some(whose_of(sort, step)?),
        None => None,
    };
    Ok(Named { sort, whose })
}

// The variable of a process that has this name, if there is one.
fn variable_of(live: &Live<'_, '_>, whose: TypedProcess, name: &[u8]) -> Option<NamedVariable>
    ensures { IfSome result (λ v. v.subject ≡ Local whose v.declared.number) }
{
    let proctype = live.program().proctypes.as_slice().get(whose.sort)?;
    match declared_as(proctype.variables.as_slice(), name) {
        Some(declared) => Some(NamedVariable {
            subject: StateSubject::Local(whose, declared.number),
            declared,
        }),
        None => None,
    }
}

// What a process, of the proctype with this number, has under the name of a field, or where it stands.
fn of_process<'w>(
    alloc: Global,
    sort: usize,
    r: &'w Reference<'_>,
    live: &'w Live<'_, '_>,
) -> Result<Base, Unread> {
    let named = named_by(sort, &r.first)?;
    let [step, rest @ ..] = r.fields.as_slice() else {
        return Err(flawed(Flaw::Process, r.first.name.line()));
    };
    let name = step.name.text();
    if name == LINE {
        return at_line(live, named, index_in(step), first_line(rest));
    }
    if name == LABEL {
        return at_label(alloc, live, named, label_in(rest)?);
    }
    match variable_of(live, whose_of(sort, &r.first)?, name) {
        Some(variable) => Ok(Base::Variable(variable)),
        None => Err(flawed(Flaw::Name, step.name.line())),
    }
}

// A number that a name stands for, which has no index and no field.
fn plain(base: Base, r: &Reference<'_>) -> Result<Base, Unread>
    ensures { IfOk result (λ found. found ≡ base) }
{
    if r.first.index.is_some() || !r.fields.is_empty() {
        return Err(flawed(Flaw::Index, r.first.name.line()));
    }
    Ok(base)
}

// What is of one process, and named by no process.
fn is_alone(name: &[u8]) -> bool {
    name == b"_pid".as_slice() || name == b"_".as_slice()
}

// What the first name of a reference is the name of.
#[derive(Clone, Copy)]
enum FirstName {
    Variable(NamedVariable),
    Number(i32),
    // a proctype, with its number
    Sort(usize),
    Nothing,
}

fn first_name(live: &Live<'_, '_>, name: &[u8]) -> FirstName {
    let program = live.program();
    if let Some(declared) = declared_as(program.globals.as_slice(), name) {
        return FirstName::Variable(NamedVariable {
            subject: StateSubject::Global(declared.number),
            declared,
        });
    }
    if let Some(number) = constant_named(program.constants.as_slice(), name) {
        return FirstName::Number(number);
    }
    match sort_named(program.proctypes.as_slice(), name) {
        Some(sort) => FirstName::Sort(sort),
        None => FirstName::Nothing,
    }
}

/// What the first names of a reference lead to.
pub fn base_of<'w>(
    alloc: Global,
    r: &'w Reference<'_>,
    live: &'w Live<'_, '_>,
) -> Result<Base, Unread> {
    let name = r.first.name.text();
    if name == LINE {
        return line_fact(live, index_in(&r.first), first_line(r.fields.as_slice()));
    }
    if is_alone(name) {
        return Err(flawed(Flaw::Alone, r.first.name.line()));
    }
    if name == b"_nr_pr".as_slice() {
        return plain(Base::ProcessCount, r);
    }
    match first_name(live, name) {
        FirstName::Variable(variable) => Ok(Base::Variable(variable)),
        FirstName::Number(number) => plain(Base::Number(number), r),
        FirstName::Sort(sort) => of_process(alloc, sort, r, live),
        FirstName::Nothing => Err(flawed(Flaw::Name, r.first.name.line())),
    }
}
