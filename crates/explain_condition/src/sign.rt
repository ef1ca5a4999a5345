//! What marks say, as plain values with the names in them.

ghost use Rattle.std.specs.Prelude.{◌≡◌, length, take, drop, true, IfSome};
ghost use Rattle.explain_condition.specs.Signs as signs;

use explain_cause::cause::{Named, Segment};
use explain_cause::place::named;
use promela_model::mark::{Constant, Declared, Holder, Mark, Role, Shape, Structure, Use, What};

/// What a mark says.
#[derive(Clone, Copy)]
pub enum Saying {
    /// A variable is declared.
    Variable,
    Field,
    /// A name of `mtype`.
    Constant,
    /// The typedef with these fields is declared.
    Typedef(usize),
    /// A proctype with so many parameters.
    Proctype(usize),
    Reference(Use),
    /// A typedef is wanted.
    Wanted,
    /// A proctype is wanted, with so many parameters.
    Run(usize),
    /// A text is printed, with so many values.
    Print(usize),
    Number,
    Width,
    Size(Constant),
    Starts(Constant),
    Preset,
    /// The capacity and the number of fields of a `chan`.
    Channel(Constant, usize),
    /// Those of a channel behind another type.
    Misplaced(Constant, usize),
    Label,
    Goto,
    Break,
    Unless,
    /// A d_step begins.
    Step,
    /// A loop begins.
    Loop,
    /// The innermost of them ends.
    Leave,
}

/// What a mark says, whose it is, and the name in it, or an empty one.
#[derive(Clone, Copy)]
pub struct NamedMark<'t> {
    pub owner: usize,
    pub matter: Saying,
    pub name: Named<'t>,
}

/// Which mark with a name is looked for.
#[derive(Clone, Copy)]
pub enum Lookup {
    /// The one that declares it for this owner.
    Declared(usize),
    /// The label of this owner.
    Label(usize),
    /// A label, whose ever it is.
    AnyLabel,
    /// A variable of some proctype.
    Local,
    Proctype,
    /// The typedef with these fields, whatever its name is.
    Fields(usize),
    /// The one that declares anything, whatever its name is.
    Any,
}

/// The first so many marks.
pub fn front<'m, 'a>(marks: &'m [Mark<'a>], count: usize) -> &'m [Mark<'a>]
    ensures { result.now ≡ take count marks.now }
{
    if count <= marks.len() {
        &marks[..count]
    } else {
        marks
    }
}

/// The marks behind so many.
pub fn behind<'m, 'a>(marks: &'m [Mark<'a>], count: usize) -> &'m [Mark<'a>]
    ensures { result.now ≡ drop count marks.now }
{
    if count <= marks.len() {
        &marks[count..]
    } else {
        &marks[..0]
    }
}

fn declared_as(declared: &Declared<'_>) -> Saying
    ensures { result ≡ signs.declared_as declared.now }
{
    match declared {
        Declared::Variable(Role::Variable, _, _, _) => Saying::Variable,
        Declared::Variable(Role::Field, _, _, _) => Saying::Field,
        Declared::Constant => Saying::Constant,
        Declared::Typedef(fields) => Saying::Typedef(*fields),
        Declared::Proctype(_, parameters) => Saying::Proctype(*parameters),
    }
}

fn matter_of(what: &What<'_>) -> Saying
    ensures { result ≡ signs.saying_of what.now }
{
    match what {
        What::Declares(_, declared) => declared_as(declared),
        What::Uses(how, _) => Saying::Reference(*how),
        What::Typedef(_) => Saying::Wanted,
        What::Runs(_, given) => Saying::Run(*given),
        What::Prints(_, given) => Saying::Print(*given),
        What::Number(_) => Saying::Number,
        What::Width(_) => Saying::Width,
        What::Size(size) => Saying::Size(*size),
        What::Starts(count) => Saying::Starts(*count),
        What::Preset(_) => Saying::Preset,
        What::Channel(Holder::Chan, capacity, fields) => Saying::Channel(*capacity, *fields),
        What::Channel(Holder::Other, capacity, fields) => Saying::Misplaced(*capacity, *fields),
        What::Label(_) => Saying::Label,
        What::Goto(_) => Saying::Goto,
        What::Break => Saying::Break,
        What::Unless => Saying::Unless,
        What::Enter(Structure::DStep) => Saying::Step,
        What::Enter(Structure::Do) => Saying::Loop,
        What::Leave => Saying::Leave,
    }
}

/// No name.
pub fn nameless<'t>(text: &'t [u8]) -> Named<'t>
    ensures offset { result.offset ≡ 0 }
    ensures empty { length result.name.now ≡ 0 }
{
    Named {
        name: &text[..0],
        offset: 0,
    }
}

fn name_of<'t>(text: &'t [u8], what: &What<'_>) -> Named<'t>
    ensures { result.offset ≡ signs.offset_of what.now }
{
    match what {
        What::Declares(token, _) => named(text, token),
        What::Typedef(token) => named(text, token),
        What::Runs(token, _) => named(text, token),
        What::Prints(token, _) => named(text, token),
        What::Number(token) => named(text, token),
        What::Width(token) => named(text, token),
        What::Label(token) => named(text, token),
        What::Goto(token) => named(text, token),
        _ => nameless(text),
    }
}

/// What a mark says.
pub fn sign_of<'t>(text: &'t [u8], mark: &Mark<'_>) -> NamedMark<'t>
    ensures owner { result.owner ≡ mark.now.owner }
    ensures matter { result.matter ≡ signs.saying_of mark.now.what }
    ensures offset { result.name.offset ≡ signs.offset_of mark.now.what }
{
    NamedMark {
        owner: mark.owner,
        matter: matter_of(&mark.what),
        name: name_of(text, &mark.what),
    }
}

/// What the mark at `at` says; where there is none, a structure ends.
pub fn sign_at<'t>(text: &'t [u8], marks: &[Mark<'_>], at: usize) -> NamedMark<'t>
    ensures owner { result.owner ≡ signs.first_owner (drop at marks.now) }
    ensures matter { result.matter ≡ signs.first_saying (drop at marks.now) }
    ensures offset { result.name.offset ≡ signs.first_offset (drop at marks.now) }
{
    match behind(marks, at) {
        [mark, ..] => sign_of(text, mark),
        [] => NamedMark {
            owner: 0,
            matter: Saying::Leave,
            name: nameless(text),
        },
    }
}

fn steps_of<'m, 'a>(mark: &'m Mark<'a>) -> &'m [Shape<'a>]
    ensures { result.now ≡ signs.steps_of mark.now.what }
{
    match &mark.what {
        What::Uses(_, steps) => steps.as_slice(),
        _ => &[],
    }
}

/// The names of the reference of the mark at `at`.
pub fn steps_at<'m, 'a>(marks: &'m [Mark<'a>], at: usize) -> &'m [Shape<'a>]
    ensures { result.now ≡ signs.first_steps (drop at marks.now) }
{
    match behind(marks, at) {
        [mark, ..] => steps_of(mark),
        [] => &[],
    }
}

/// Whether a name is declared.
pub fn is_declared(matter: Saying) -> bool
    ensures { result ≡ signs.is_declared matter }
{
    matches!(
        matter,
        Saying::Variable
            | Saying::Field
            | Saying::Constant
            | Saying::Typedef(_)
            | Saying::Proctype(_)
    )
}

/// Whether a mark with some name is one that is looked for.
fn is_sought(owner: usize, matter: Saying, sought: Lookup) -> bool
    ensures { result ≡ signs.is_sought owner matter sought }
{
    match sought {
        Lookup::Declared(wanted) => owner == wanted && is_declared(matter),
        Lookup::Label(wanted) => owner == wanted && matches!(matter, Saying::Label),
        Lookup::AnyLabel => matches!(matter, Saying::Label),
        Lookup::Local => 0 < owner && matches!(matter, Saying::Variable),
        Lookup::Proctype => matches!(matter, Saying::Proctype(_)),
        Lookup::Fields(wanted) => matches!(matter, Saying::Typedef(fields) if fields == wanted),
        Lookup::Any => is_declared(matter),
    }
}

fn fits(sign: NamedMark<'_>, sought: Lookup, name: &[u8]) -> bool
    ensures { result ≡ true → signs.is_sought sign.entry.owner sign.entry.matter sought ≡ true }
{
    let has_any_name = matches!(sought, Lookup::Fields(_) | Lookup::Any);
    is_sought(sign.owner, sign.matter, sought) && (has_any_name || sign.name.name == name)
}

/// The first of these marks that is looked for.
pub fn first<'t>(
    text: &'t [u8],
    marks: &[Mark<'_>],
    sought: Lookup,
    name: &[u8],
) -> Option<NamedMark<'t>>
    ensures { IfSome result (λ sign. signs.is_sought sign.owner sign.matter sought ≡ true) }
{
    for mark in marks {
        let sign = sign_of(text, mark);
        if fits(sign, sought, name) {
            return Some(sign);
        }
    }
    None
}

/// The name of the first of these marks that is looked for.
pub fn first_name<'t>(
    text: &'t [u8],
    marks: &[Mark<'_>],
    sought: Lookup,
    name: &[u8],
) -> Option<Named<'t>> {
    match first(text, marks, sought, name) {
        Some(sign) => Some(sign.name),
        None => None,
    }
}

/// The name that is declared first by these marks.
pub fn next_name<'t>(text: &'t [u8], marks: &[Mark<'_>]) -> Option<Named<'t>> {
    first_name(text, marks, Lookup::Any, b"")
}

/// The proctype that is declared last by these marks.
pub fn last_proctype<'t>(text: &'t [u8], marks: &[Mark<'_>]) -> Option<Named<'t>> {
    let mut found = None;
    for mark in marks {
        let sign = sign_of(text, mark);
        if is_sought(sign.owner, sign.matter, Lookup::Proctype) {
            found = Some(sign.name);
        }
    }
    found
}

/// What the first of these marks that declares a name of the owner says.
fn declared_by(text: &[u8], marks: &[Mark<'_>], owner: usize, name: &[u8]) -> Saying {
    match first(text, marks, Lookup::Declared(owner), name) {
        Some(sign) => sign.matter,
        None => Saying::Leave,
    }
}

/// The second, where the first declares nothing.
fn or_else(first: Saying, second: Saying) -> Saying
    ensures { result ≡ signs.or_else first second }
{
    if is_declared(first) { first } else { second }
}

fn only_proctype(matter: Saying) -> Saying
    ensures { result ≡ signs.only_proctype matter }
{
    match matter {
        Saying::Proctype(parameters) => Saying::Proctype(parameters),
        _ => Saying::Leave,
    }
}

/// What a name of the owner is declared as where the mark at `at` stands, among its own names, the global ones, or else the proctypes
/// of the whole text.
pub fn meaning(text: &[u8], marks: &[Mark<'_>], at: usize, owner: usize, name: &[u8]) -> Saying {
    let before = front(marks, at);
    let own = declared_by(text, before, owner, name);
    let global = declared_by(text, before, 0, name);
    let later = only_proctype(declared_by(text, marks, 0, name));
    or_else(own, or_else(global, later))
}

/// The place of a name.
pub fn place_of_name(name: Named<'_>) -> Segment
    ensures offset { result.offset ≡ name.entry.offset }
    ensures length { result.length ≡ length name.entry.name.now }
{
    Segment {
        offset: name.offset,
        length: name.name.len(),
    }
}
