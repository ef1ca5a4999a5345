//! What is to be written in place of words and forms of other languages.

ghost use Rattle.std.specs.Prelude.{OnOk};
ghost use Rattle.explain.specs.Said.{Keeps};

use crate::message::Notice;
use explain_cause::cause::{Classes, Phrase};
use explain_cause::foreign::Foreign;
use std::alloc::AllocError;

/// Of words that stand for parts of other statements and declarations.
fn of_more_words(foreign: Foreign) -> &'static str {
    match foreign {
        Foreign::Modifier => "leave it out: a declaration begins with its type, as in `int x`",
        Foreign::Skip => "write `skip`",
        Foreign::Assertion => "write `assert(x == 1)`",
        Foreign::Array => "an array has its size in brackets behind its name, as in `int a[3]`",
        Foreign::Parallel =>
            "processes run side by side once they are begun, as by `run P(); run Q()`",
        Foreign::Length =>
            "how many elements an array has is the number in its declaration; `len(c)` is of a channel",
        Foreign::Own => "`_pid` is the number of the process itself",
        Foreign::Otherwise => "all other cases are the option `:: else -> ..`",
        Foreign::Join =>
            "the end of a process is awaited by what it does last, as by a message or `done == 1`",
        foreign => of_declared(foreign),
    }
}

/// Of words of statements.
fn of_statement(foreign: Foreign) -> &'static str {
    match foreign {
        Foreign::Loop => "a loop is `do :: x < 3 -> .. :: else -> break od`",
        Foreign::Cases =>
            "a choice of cases is `if :: x == 1 -> .. :: x == 2 -> .. :: else -> .. fi`",
        Foreign::ElseIf =>
            "a further case is another option, as in `if :: x == 1 -> .. :: x == 2 -> .. :: else -> .. fi`",
        Foreign::Then => "an option is written `:: x == 1 -> ..`",
        Foreign::EndIf => "`fi` ends an `if`",
        Foreign::EndLoop => "`od` ends a `do`",
        Foreign::Body => "a body stands between `{` and `}`",
        Foreign::Print => "write `printf(\"..\\n\")`",
        Foreign::Read =>
            "nothing is read in a run: where an `if` has an option for each value you choose it",
        Foreign::Sleep =>
            "there is no time: a condition as a statement, as `x == 1`, waits until it holds",
        Foreign::Wait => "a condition as a statement, as `x == 1`, waits until it holds",
        Foreign::Continue =>
            "a `do` begins again by itself behind its option; `goto` and a label leave the rest of one out",
        Foreign::Exit =>
            "a process ends at its closing brace: `goto` a label there, as `done: skip`",
        Foreign::Lock =>
            "a lock is a variable that is asked and set in one: `atomic { !locked -> locked = true }`",
        Foreign::Try =>
            "write `{ x = 1; y = 2 } unless { stop }`: what is done, and behind it what ends that",
        Foreign::Spawn => "a process is begun by `run P()`",
        Foreign::Random => "write `select (x : 1 .. 6)`, and choose the number",
        Foreign::Message => "a message is sent by `c ! 1` and received by `c ? x`",
        foreign => of_more_words(foreign),
    }
}

/// Of words of declarations and values.
fn of_declaration(foreign: Foreign) -> &'static str {
    match foreign {
        Foreign::Function =>
            "there are no functions: an `inline f(a, b) { .. }` stands in place of its calls, and a `proctype` is run",
        Foreign::Process => "write `proctype P() { .. }`",
        Foreign::Constant =>
            "a constant is a macro, `#define N 3`, which `spinprep` replaces, or a name of `mtype`",
        Foreign::Variable => "a declaration begins with a type, as `byte x` or `int x`",
        Foreign::Record => "write `typedef T { byte a; byte b }`",
        Foreign::Enumeration => "write `mtype = { a, b }`",
        Foreign::Number =>
            "the types of numbers are `bit`, `byte`, `short`, `int` and `unsigned x : 8`",
        Foreign::Truth => "write `bool`",
        Foreign::Byte => "write `byte`",
        Foreign::Text => "there are no strings but in `printf`: name things by `mtype`",
        Foreign::Fraction =>
            "there are no fractions: the types of numbers are `bit`, `byte`, `short`, `int` and `unsigned x : 8`",
        Foreign::True => "write `true`",
        Foreign::False => "write `false`",
        Foreign::Nothing =>
            "there is no such value: write 0, or a name of `mtype`; the statement that does nothing is `skip`",
        Foreign::Include => "write `#include \"FILE\"`, which `spinprep` replaces",
        Foreign::Main => "write `init { .. }`",
        Foreign::To => "a range is written `1 .. 3`",
        Foreign::In => "write `for (i : 0 .. 2)`, with the numbers of the elements",
        foreign => of_statement(foreign),
    }
}

/// Of signs and of words for them.
fn of_sign(foreign: Foreign) -> &'static str {
    match foreign {
        Foreign::And => "write `&&`",
        Foreign::Or => "write `||`",
        Foreign::Not => "write `!`",
        Foreign::Xor => "write `^`",
        Foreign::Remainder => "write `%`",
        Foreign::Quotient => "write `/`",
        Foreign::Power => "there is no `**`: multiply, or shift by `<<`",
        Foreign::Unequal => "write `!=` for `<>` and `~=`",
        Foreign::FatArrow => "write `->`, as in `x == 1 -> x = 2`",
        Foreign::ColonEquals => "write `=` for `:=`",
        Foreign::ThreeEquals => "write `==` for `===`, and `!=` for `!==`",
        Foreign::Conditional => "a value by a condition is `(x == 1 -> 2 : 3)`, in parentheses",
        Foreign::Prefix => "write `x++` or `x--`, with the sign behind",
        Foreign::Postfix => "`x++` and `x--` are statements of their own, and have no value",
        Foreign::Comparison =>
            "`==` compares; an assignment is a statement of its own, and has no value",
        Foreign::Counting => "write `for (i : 0 .. 9) { .. }`",
        foreign => of_declaration(foreign),
    }
}

/// Of forms that stand for something else.
fn of_form(foreign: Foreign) -> &'static str {
    match foreign {
        Foreign::TimeoutArgument =>
            "`timeout` has no argument, and there is no time: it is 1 where nothing else can be done",
        Foreign::LoopType =>
            "the variable is declared before the loop, as in `int i; for (i : 1 .. 3) { .. }`",
        Foreign::LoopParens => "write `for (i : 0 .. 3) { .. }`",
        Foreign::SelectRange => "write `select (k : 1 .. 4)`",
        Foreign::GotoColon => "behind `goto` a label has no `:`",
        Foreign::TwoSizes =>
            "an array has one size: an array of records has two, as in `typedef Row { byte c[3] }` and `Row a[3]`",
        Foreign::ActiveCount =>
            "how many begin stands in brackets, as in `active [2] proctype P()`",
        Foreign::QuotedName => "names stand without quotation marks, as in `mtype = { a, b }`",
        Foreign::ReceivedValue =>
            "a message is received by a statement of its own, as `c ? v`, which stores it in `v`",
        Foreign::ChannelTypes => "the types stand in braces, as in `chan c = [2] of { byte }`",
        Foreign::BraceBody => "statements stand in braces, as in `atomic { .. }`",
        foreign => of_text(foreign),
    }
}

/// Of forms of texts and names.
fn of_text(foreign: Foreign) -> &'static str {
    match foreign {
        Foreign::PrintmText =>
            "`printm` prints a name of `mtype`: write `printf(\"..\")` for a text",
        Foreign::TextPrefix =>
            "a text has no letter before it: values stand behind it, as in `printf(\"%d\\n\", x)`",
        Foreign::PrintValue => "`printf` begins with a text, as in `printf(\"%d\\n\", x)`",
        Foreign::PrintJoined => "values stand behind the text, as in `printf(\"%d\\n\", x)`",
        Foreign::Digits => "numbers are written with the digits 0 to 9 alone",
        Foreign::NameBegins => "a name begins with a letter or `_`",
        Foreign::NameSigns => "a name has letters, digits and `_` alone",
        Foreign::CommentEnd =>
            "the comment has ended before it: comments do not stand within one another",
        Foreign::NumberedName =>
            "names of `mtype` have no numbers of their own: write `mtype = { a, b }`",
        Foreign::NamedMtype =>
            "names are declared by `mtype = { a, b }` outside of all braces, and a variable of them by `mtype x`",
        foreign => of_place(foreign),
    }
}

/// Of what stands at another place here.
fn of_place(foreign: Foreign) -> &'static str {
    match foreign {
        Foreign::TypeBehind => "the type stands before the name, as in `int x`",
        Foreign::RepeatedType =>
            "a type stands once before its names: write `;` for the `,`, or leave the type out",
        Foreign::LabelDeclaration =>
            "a label stands before a statement, and before no declaration: declare first",
        Foreign::ReceivedType => "the variable is declared before, as in `int x; c ? x`",
        Foreign::RecordValue =>
            "a variable of a typedef begins with no value: assign its fields, as in `r.a = 1`",
        Foreign::NestedUnit => "it stands outside of all braces, and in those of no other",
        Foreign::ActiveProctype => "write `active proctype P() { .. }`",
        Foreign::ActiveInit => "`init` begins by itself: leave `active` out",
        Foreign::RunName => "a proctype with its arguments is wanted behind `run`, as in `run P()`",
        Foreign::ChannelQuestion =>
            "a channel is asked by `empty(c)`, `full(c)`, `nempty(c)`, `nfull(c)` or `len(c)`",
        Foreign::MessageFields =>
            "the fields of a message stand alone, as in `c ! 1, 2` and `c ? x, y`",
        Foreign::TypeName => "a type is no name: a name stands behind it, as in `int x`",
        Foreign::ArrayRange =>
            "an array has one number as its size, as in `int a[3]`, and its elements are `a[0]` to `a[2]`",
        Foreign::OutsideSign =>
            "declarations and proctypes stand outside of all braces; a comment is written `/* .. */` or `// ..`",
        Foreign::ChannelRecord =>
            "a field of a message has a plain type, as `byte`: send the fields of a record one by one",
        Foreign::ChannelFields =>
            "the types of a channel's fields stand alone, as in `chan c = [2] of { byte, int }`",
        foreign => of_other_sign(foreign),
    }
}

/// Of what one word or one declaration does not have.
fn of_declared(foreign: Foreign) -> &'static str {
    match foreign {
        Foreign::ParameterArray =>
            "a parameter is no array: let the array be global, and give the process an index of it",
        Foreign::ParameterValue =>
            "a parameter begins with what `run` gives it, as in `run P(3)`: leave the value out",
        Foreign::LoopRange =>
            "a range has a first and a last number, as in `for (i : 0 .. 2) { .. }`",
        Foreign::PrintTexts =>
            "`printf` has one text, with `%d` where a value stands, as in `printf(\"x is %d\\n\", x)`",
        Foreign::DeclaredEqual =>
            "`==` compares: a variable begins with a value by `=`, as in `byte x = 5`",
        Foreign::ProctypeType =>
            "a type before it is wrong: a proctype, an inline and `init` give no value",
        Foreign::ReceiveValue =>
            "a receive takes variables and numbers: one value alone is taken by `eval`, as in `c ? eval(x + 1)`",
        Foreign::ElseCondition =>
            "`else` stands alone, for when no other option can be taken: a condition is an option of its own, as `:: x > 0 -> ..`",
        Foreign::ChannelAlone =>
            "a channel stands alone there: what it is compared with stands behind the `)`, as in `len(c) > 0`",
        Foreign::GotoLabel => "a label is wanted behind `goto`, as in `goto again`",
        Foreign::OptionArrow =>
            "a condition is wanted before it, as in `:: x == 1 -> ..`; an option without one has no `->` there",
        Foreign::InRange => "a range is asked by two comparisons, as in `x >= 1 && x <= 3`",
        foreign => of_missing(foreign),
    }
}

/// Of what lacks a sign, or has one that is not wanted.
fn of_missing(foreign: Foreign) -> &'static str {
    match foreign {
        Foreign::LoopBody => "the body of a loop stands in braces, as in `for (i : 0 .. 9) { .. }`",
        Foreign::PeekEnd => "`>` is wanted before it, as in `c ? <x>`",
        Foreign::EvalParens => "`eval` has its value in parentheses, as in `c ? eval(x)`",
        Foreign::ChannelParens => "the channel stands in parentheses, as in `len(c)`",
        Foreign::NoParameters => "a proctype without parameters is written `proctype P() { .. }`",
        Foreign::NoFields => "a message has one field at least, as in `chan c = [2] of { byte }`",
        Foreign::CommentSign =>
            "no statement begins with it; a comment is written `/* .. */` or `// ..`",
        Foreign::Setting => "an assignment has no word before it, as in `x = 1`",
        Foreign::TwoIndexes =>
            "an array has one index: an array of records has two, as in `a[1].c[2]`",
        Foreign::EmptyIndex => "an index is wanted between the brackets, as in `a[0]`",
        Foreign::ArgumentType => "an argument is a value, and has no type, as in `run P(1)`",
        Foreign::ListValue =>
            "a variable begins with one value, and so does each element: others are assigned, as in `a[1] = 2`",
        Foreign::FieldComma => "write `,` for it, as in `chan c = [2] of { byte, byte }`",
        Foreign::Headless =>
            "a definition begins with a word, as in `proctype P() { .. }` and `inline f(a) { .. }`",
        Foreign::StatementWord => "it begins a statement, and none can stand there",
        Foreign::RecordList =>
            "a variable of a typedef takes no list: assign its fields, as in `r.a = 1`",
        Foreign::OptionBehind =>
            "an option stands before the `fi` or the `od` that ends its `if` or `do`",
        Foreign::ProctypeResult =>
            "a proctype has no type: its name stands behind `proctype`, as in `proctype P() { .. }`",
        Foreign::ValueParens => "`true` and `false` stand without parentheses",
        Foreign::CallParens =>
            "parentheses are wanted there, as in `assert(x == 1)` and `printf(\"..\\n\")`",
        Foreign::TwoTypes => "one type alone stands before a name, as in `int x`",
        Foreign::LoopIn => "write `:` for it, as in `for (i : 0 .. 2)`",
        Foreign::ArgumentComma =>
            "write `,` for it: arguments are parted by `,`, as in `run P(1, 2)`",
        Foreign::NoChannel => "the name of a channel is wanted before it, as in `empty(c)`",
        Foreign::AtomicUnit =>
            "`atomic` and `d_step` stand in a body, as in `proctype P() { atomic { .. } }`",
        Foreign::Leave =>
            "a loop is left by `break`, a body ends with its `}`, and `skip` does nothing",
        _ => "",
    }
}

/// Of signs that are written otherwise.
fn of_other_sign(foreign: Foreign) -> &'static str {
    match foreign {
        Foreign::TwoAssignments => "one variable is assigned at a time, as in `x = 1; y = 2`",
        Foreign::TwoMessages => "one message is sent or received at a time, as in `c ! 1; c ? x`",
        Foreign::ReceiveInCondition =>
            "a message is received by a statement of its own: ask its value in the next, as in `c ? x -> if :: x > 2 -> .. :: else -> .. fi`",
        Foreign::Element => "an element of an array is written `a[1]`",
        Foreign::LastSemicolon => "the `;` before it is one too many",
        Foreign::ChannelParameter =>
            "a parameter takes a channel that is declared elsewhere: write `chan c` alone",
        Foreign::ChannelAssignment =>
            "a channel is made where it is declared, as in `chan c = [1] of { byte }`",
        Foreign::OtherWidth => "only `unsigned` has a number of bits, as in `unsigned x : 8`",
        Foreign::LabelColon =>
            "a label has a `:` behind it, as in `again: x = 1`, and a declaration begins with a type",
        Foreign::TwoEquals => "one `=` assigns, and `==` without a blank compares",
        Foreign::LastComma =>
            "what the `,` before it goes on with is missing, or the `,` is one too many",
        Foreign::BreakLabel =>
            "`break` leaves the innermost `do`, and names no label: others are left by `goto`",
        Foreign::ElseArrow => "write `->` behind `else`, as in `:: else -> x = 1`",
        Foreign::NoParens => "`skip` and `break` stand without parentheses",
        Foreign::Target =>
            "before `=` stands a variable, an element or a field alone; `==` compares",
        Foreign::EndlessLoop =>
            "a loop without end is `do :: x = x + 1 od`, and one over numbers `for (i : 0 .. 3) { .. }`",
        Foreign::SelectCases =>
            "`select (x : 1 .. 6)` takes a number; a choice of cases is `if :: x == 1 -> .. :: else -> .. fi`",
        Foreign::Pointer => "there are no pointers and no addresses: name the variable itself",
        Foreign::LessEquals => "write `<=` for `=<`",
        Foreign::GreaterEquals =>
            "write `->` for `=>` behind a condition, as in `x == 1 -> x = 2`, and `>=` between numbers",
        Foreign::Same => "write `==` for `<->`",
        Foreign::LabelName => "a label is a name, as in `again: skip`",
        Foreign::EmptyBrackets => "a number is wanted between the brackets, as in `int a[3]`",
        Foreign::Implication =>
            "`(a -> b : c)` is a choice of two values: that `a` implies `b` is `!a || b`",
        Foreign::Cast => "there are no casts: what is stored is cut to the type of its variable",
        foreign => of_sign(foreign),
    }
}

/// What is to be written.
pub fn advice(foreign: Foreign) -> &'static str {
    match foreign {
        Foreign::AssertText => "`assert` has one expression, and no text",
        Foreign::BodyBrace =>
            "`{` is wanted before it: a body stands between `{` and `}`, as in `proctype P() { .. }`",
        Foreign::InitParameters => "write `init { .. }`, without parentheses",
        Foreign::Channel => "a channel is declared as `chan c = [2] of { byte }`",
        Foreign::Size => "a size stands behind the name, as in `int a[5]`",
        Foreign::ParameterType => "a parameter has a type, as in `proctype P(byte x; byte y)`",
        Foreign::Width => "`unsigned` wants the number of its bits, as in `unsigned x : 8`",
        Foreign::EmptyOption => "a statement is wanted behind `::`, for example `skip`",
        Foreign::EmptyBody => "a statement is wanted between the braces, for example `skip`",
        Foreign::Outside => "statements stand between the braces of a `proctype` or of `init`",
        foreign => of_form(foreign),
    }
}

/// Adds what is told of a word of another language.
pub fn tell_word(message: &mut Notice<'_>, foreign: Foreign, word: &[u8]) -> Result<(), AllocError>
    ensures { OnOk result (Keeps message.old message.new) }
{
    message.around("", word, " is no word here: ")?;
    message.push(advice(foreign))
}

/// What a sign is called.
fn words_of_sign(class: Phrase) -> &'static str {
    match class {
        Phrase::Semicolon => "`;`",
        Phrase::Comma => "`,`",
        Phrase::CloseParen => "`)`",
        Phrase::CloseBracket => "`]`",
        Phrase::CloseBrace => "`}`",
        Phrase::OpenParen => "`(`",
        Phrase::OpenBrace => "`{`",
        Phrase::DoubleColon => "`::`",
        Phrase::Assign => "`=`",
        Phrase::Colon => "`:`",
        Phrase::Of => "`of`",
        _ => "an operator",
    }
}

/// What a class is called.
fn words_of(class: Phrase) -> &'static str {
    match class {
        Phrase::Statement => "a statement",
        Phrase::Expression => "an expression",
        Phrase::Name => "a name",
        Phrase::Type => "a type",
        Phrase::Unit => "a declaration or a proctype",
        Phrase::Text => "a string",
        sign => words_of_sign(sign),
    }
}

/// Adds one more of a list, where there is one; `next` is what follows it.
fn tell_class(
    message: &mut Notice<'_>,
    class: Option<Phrase>,
    next: Option<Phrase>,
) -> Result<(), AllocError>
    ensures { OnOk result (Keeps message.old message.new) }
{
    match class {
        Some(class) => {
            message.push(if next.is_some() { ", " } else { " or " })?;
            message.push(words_of(class))
        }
        None => Ok(()),
    }
}

/// Adds what may stand there.
pub fn tell_classes(message: &mut Notice<'_>, classes: Classes) -> Result<(), AllocError>
    ensures { OnOk result (Keeps message.old message.new) }
{
    if let Some(first) = classes.first {
        message.push(words_of(first))?;
    }
    tell_class(message, classes.second, classes.third)?;
    tell_class(message, classes.third, classes.fourth)?;
    tell_class(message, classes.fourth, None)?;
    message.push(" may stand here")
}
