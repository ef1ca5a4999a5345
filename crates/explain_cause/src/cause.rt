//! Why a model is refused: what is told of it, and where it lies.

use crate::foreign::Foreign;

/// A part of a text: how many bytes stand before it, and how many it has.
#[derive(Clone, Copy)]
pub struct Segment {
    pub offset: usize,
    pub length: usize,
}

/// A name of the text, and how many bytes stand before it.
#[derive(Clone, Copy)]
pub struct Named<'t> {
    pub name: &'t [u8],
    pub offset: usize,
}

/// Of a text that has no tokens, that has words that are left out, or that is too deep.
#[derive(Clone, Copy)]
pub enum TextCause<'t> {
    /// It has so many bytes.
    TooLong(usize),
    /// A byte begins no token.
    Stray(u8),
    /// A character begins none that people write for a sign.
    Sign(&'t [u8]),
    /// `/\` or `\/`.
    Slashes,
    /// A `$` in front of a name.
    Dollar,
    OpenString,
    OpenComment,
    /// A word, a sign or a `#` line that is left out.
    LeftOut(&'t [u8]),
    /// A `return` in what is written as a function of this name.
    ReturnOf(Named<'t>),
    /// A text between `'`.
    Quote,
    /// A `'` behind a name.
    Prime,
    /// Too many brackets are open.
    Nested,
    /// Too many tokens stand in a row.
    Row,
}

/// What is wanted where no rule reads a token.
#[derive(Clone, Copy)]
pub enum Expected<'t> {
    /// A `;` at the end of the line before.
    SemicolonAtLineEnd(Named<'t>),
    /// A `;` in front of the token.
    Semicolon,
    /// A statement behind this label.
    Statement(&'t [u8]),
    /// No list in braces.
    NoList,
    /// No sub-typed `mtype`.
    NoSubtype,
    /// No `run` within an expression.
    NoRun,
    /// What closes this.
    Closer(Named<'t>),
    /// Nothing is open that the token closes.
    NothingOpen,
    /// The text ends within this.
    EndOf(Named<'t>),
    /// The text ends, and by the indentation of the lines what closes this is missing.
    EndByLayout(Named<'t>),
    /// What closes this, which by the indentation of the lines is missing somewhere before the token.
    CloserByLayout(Named<'t>),
    /// What closes this, in front of this `->`.
    CloserBeforeArrow(Named<'t>, Named<'t>),
    /// A name, and the token is a word of the language.
    Name,
    /// `x = x + ..` in place of `x += ..`.
    PlainAssignment,
    /// An inline of this name, which is defined behind it, or nowhere.
    Inline(Named<'t>, Option<Named<'t>>),
    /// `::` behind `if` or `do`.
    Options(&'t [u8]),
    /// `::` in front of `else`.
    OptionSign,
    /// An operand behind this operator.
    Operand(&'t [u8]),
    /// `(` and the arguments of a process of this proctype.
    Arguments(&'t [u8]),
    /// Nothing: without the token it is read.
    Nothing,
    /// A form of another language.
    Form(Foreign),
    /// Another one for this word of another language.
    ForeignWord(Foreign, Named<'t>),
    /// `()` and the parameters of a proctype of this name.
    Parameters(&'t [u8]),
    /// `run` in front of this proctype, which is called as a function: where it is declared, and where it is called.
    RunOf(Named<'t>, Named<'t>),
    /// A word of the language that this name is near to.
    Word(Named<'t>, &'static [u8]),
    /// A type or another word of the language for this name, which is none.
    NoWord(Named<'t>),
    /// A type for this name, of which a variable is declared.
    NoType(Named<'t>),
    /// An index for this variable, which is called as a function.
    Index(Named<'t>),
    /// What this inline stores, which stands where a value is wanted.
    InlineValue(Named<'t>),
    /// What closes this, in front of the token.
    CloserBefore(Named<'t>),
    /// What closes this and a `;`, in front of the token, which begins a line.
    CloserAndSemicolon(Named<'t>),
    /// A `;` at the end of the line before, or `::` in front of the token where it begins an option.
    SemicolonOrOption(Named<'t>),
    /// A `;` in place of the token.
    SemicolonFor,
    /// `::` in place of the token.
    OptionFor,
    /// `->` in place of this sign.
    ArrowFor(Named<'t>),
    /// A `,` in front of the token.
    Comma,
    /// A `,` in front of this name, which stands behind another one.
    CommaBefore(Named<'t>),
    /// A type in front of this name.
    Untyped(Named<'t>),
    /// Another name than this one, which an inline has.
    NameOfInline(Named<'t>, Named<'t>),
    /// No `run` in front of this call of an inline.
    InlineRun(Named<'t>, Named<'t>),
    /// One of these.
    OneOf(Classes),
    /// More than one thing may stand there.
    Untold,
}

/// What may stand at a place.
#[derive(Clone, Copy, PartialEq, Eq)]
pub enum Phrase {
    Statement,
    Expression,
    Name,
    Type,
    Unit,
    Text,
    Semicolon,
    Comma,
    CloseParen,
    CloseBracket,
    CloseBrace,
    OpenParen,
    OpenBrace,
    DoubleColon,
    Assign,
    Colon,
    Of,
    Operator,
}

/// At most four of what may stand at a place.
#[derive(Clone, Copy)]
pub struct Classes {
    pub first: Option<Phrase>,
    pub second: Option<Phrase>,
    pub third: Option<Phrase>,
    pub fourth: Option<Phrase>,
}

/// Of tokens that no tree spells: the token where it shows, and what was wanted there.
#[derive(Clone, Copy)]
pub struct SyntaxCause<'t> {
    pub found: &'t [u8],
    pub wanted: Expected<'t>,
}

/// Of a name that is declared twice.
#[derive(Clone, Copy)]
pub enum TwiceCause<'t> {
    /// It is declared before.
    Again(Named<'t>, Named<'t>),
    /// A second `init`.
    Init(Named<'t>),
    /// `_`, `_pid` or `_nr_pr`.
    Special(&'t [u8]),
}

/// What a name is where another thing is wanted.
#[derive(Clone, Copy)]
pub enum NameSort {
    Variable,
    Constant,
    Typedef,
    Proctype,
    Label,
    Field,
}

/// Of a name that is not declared.
#[derive(Clone, Copy)]
pub enum UnknownCause<'t> {
    /// It is declared nowhere; the nearest name that may stand there.
    Nowhere(NameSort, &'t [u8], Option<Named<'t>>),
    /// It is declared behind its use.
    Later(Named<'t>),
    /// It is a typedef, and this is of a field of its own.
    Itself(Named<'t>),
    /// It is declared in a proctype, where alone it can be named.
    Elsewhere(Named<'t>),
    /// It is something else.
    Instead(Named<'t>, NameSort),
    /// It stands behind `->`, and this record in front of that.
    Arrow(Named<'t>, &'t [u8]),
    /// It is a word of another language.
    Foreign(&'t [u8], Foreign),
    /// It stands alone as a statement.
    Bare(&'t [u8]),
    /// It is an inline that is defined here, and stands without the parentheses of its call.
    Inline(Named<'t>),
    /// It is near to a word of the language.
    Word(&'t [u8], &'static [u8]),
    /// A field that this typedef lacks, and the nearest field.
    Field(&'t [u8], Named<'t>, Option<Named<'t>>),
}

/// Of a name or a value of the wrong kind.
#[derive(Clone, Copy)]
pub enum WrongCause<'t> {
    ArrayWithoutIndex(&'t [u8]),
    /// How many elements an array has is asked as a field of it.
    ArrayLength(&'t [u8]),
    /// An array where a channel is wanted.
    ArrayForChannel(&'t [u8]),
    IndexWithoutArray(&'t [u8]),
    FieldOfNone(&'t [u8], &'t [u8]),
    WholeTypedef(&'t [u8]),
    NoChannel(&'t [u8]),
    StoredConstant(&'t [u8]),
    StoredSpecial(&'t [u8]),
    ReadUnderscore,
    PidOutside,
    /// An index or a field behind a name that has none.
    NotPlain(&'t [u8]),
    /// A field's initialiser names a variable.
    Preset(&'t [u8]),
    NoTypedef(Named<'t>, NameSort),
    NoProctype(Named<'t>, NameSort),
    /// A size, a count, an initialiser of a field or a capacity that is no constant expression.
    OpenSize(&'t [u8]),
    OpenCount(&'t [u8]),
    OpenPreset(&'t [u8]),
    OpenCapacity(&'t [u8]),
    /// A channel initialiser behind another type than `chan`.
    Holder(&'t [u8]),
}

/// Of a wrong number of arguments.
#[derive(Clone, Copy)]
pub enum CountCause<'t> {
    /// The proctype, the arguments that there are, and those that are wanted.
    Run(Named<'t>, usize, usize),
    Printf(usize, usize),
    /// This stands behind `%`.
    Conversion(u8),
    /// Nothing stands behind `%`.
    OpenConversion,
}

/// Of a label.
#[derive(Clone, Copy)]
pub enum LabelCause<'t> {
    /// It stands before already.
    Twice(Named<'t>),
    /// It is missing; the nearest one of the proctype.
    Missing(&'t [u8], Option<Named<'t>>),
    /// It stands in another proctype.
    Elsewhere(Named<'t>),
}

/// The labels of a circle: how many there are, and the first of them; where there are fewer, the others are empty.
#[derive(Clone, Copy)]
pub struct CircleLabels<'t> {
    pub count: usize,
    pub first: &'t [u8],
    pub second: &'t [u8],
    pub third: &'t [u8],
}

/// Of breaks, d_steps and circles.
#[derive(Clone, Copy)]
pub enum ControlCause<'t> {
    LooseBreak,
    BreakOfStep,
    Unless,
    GotoLeaves(Named<'t>),
    GotoEnters(Named<'t>),
    /// The d_step begins with an `else`.
    FirstElse(Named<'t>),
    /// What the d_step begins with leads out of it.
    FirstLeaves(Named<'t>),
    Circle(CircleLabels<'t>),
}

/// Of numbers and cells.
#[derive(Clone, Copy)]
pub enum RangeCause<'t> {
    Number(&'t [u8]),
    Width(&'t [u8]),
    /// A number where only the numbers from the first to the last may stand, in the declaration of this name.
    Size(&'t [u8], i32),
    Count(&'t [u8], i32),
    Capacity(&'t [u8], i32),
    Fields(&'t [u8], usize),
    Constants(&'t [u8]),
    /// A constant expression divides by 0.
    Divides(&'t [u8]),
    Cells(&'t [u8]),
    ChannelCells(&'t [u8]),
}

/// What an initialiser may have done.
#[derive(Clone, Copy, PartialEq, Eq)]
pub enum Hazard {
    Divides,
    Index,
    Channel,
    Any,
}

/// Of the first state.
#[derive(Clone, Copy)]
pub enum StartCause<'t> {
    /// No process begins, though this proctype is there.
    NoProcess(Option<Named<'t>>),
    Processes(&'t [u8]),
    Channels(&'t [u8]),
    Initialiser(&'t [u8], Hazard),
}

/// Of inlines.
#[derive(Clone, Copy)]
pub enum InlineCause<'t> {
    /// A definition within braces.
    Within,
    /// A definition that is not of the form.
    Form,
    /// A definition without the `{` of its body.
    NoBody,
    /// A definition without its last `}`.
    OpenBody(&'t [u8]),
    Twice(Named<'t>),
    ParameterTwice(&'t [u8]),
    /// A call without its `)`.
    OpenCall(&'t [u8]),
    Arguments(Named<'t>, usize, usize),
    EmptyArgument(&'t [u8]),
    /// Something else is declared by the name of this one.
    NameTaken(Named<'t>),
    CallsItself(&'t [u8]),
    TooDeep(&'t [u8]),
    TooLong(&'t [u8]),
}

/// Why a model is refused.
#[derive(Clone, Copy)]
pub enum Reason<'t> {
    Text(TextCause<'t>),
    Syntax(SyntaxCause<'t>),
    Twice(TwiceCause<'t>),
    Unknown(UnknownCause<'t>),
    /// How many bytes stand before the declaration of the variable that it is told of, where that is one name.
    Wrong(WrongCause<'t>, Option<usize>),
    Count(CountCause<'t>),
    Label(LabelCause<'t>),
    Control(ControlCause<'t>),
    Range(RangeCause<'t>),
    Start(StartCause<'t>),
    Inline(InlineCause<'t>),
    /// No more is known than the refusal.
    Untold,
}

/// Why a model is refused, and where.
#[derive(Clone, Copy)]
pub struct Finding<'t> {
    pub place: Option<Segment>,
    pub cause: Reason<'t>,
}
