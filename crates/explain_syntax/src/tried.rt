//! What is wanted where no rule reads a token, told by reading the tokens once more with a change of one of them.

ghost use Rattle.std.specs.Prelude.{◌≡◌, true, IfOk};
ghost use Rattle.pml_token.specs.declared.token.Kind.TheVariants.{Else};
ghost use Rattle.explain_cause.specs.Places.{kind_at as kind};
ghost use Rattle.explain_syntax.specs.Trials as trials;
ghost use Rattle.explain_syntax.specs.Wanted as sorts;
ghost use Rattle.explain_syntax.specs.Beside as beside;

use crate::classes::classes_at;
use crate::elements::is_declaration;
use crate::kinds::{MESSAGES, OF_CONDITIONS, STATEMENT_ENDS, STATEMENTS};
use crate::stopped::{
    are_before, begin_of, begins_line, has_in_statement, is_before, kind_behind, name_at,
    name_before, opener_before,
};
use crate::trial::{Repair, may_stand, reads_on};
use crate::within::{arrow_between, is_closed, is_named_there};
use explain_cause::cause::{Expected, Named};
use explain_cause::foreign::Foreign;
use explain_cause::place::{from, is_among, is_at, kind_at};
use pml_token::token::{Kind, Token, same_kind};
use std::alloc::{AllocError, Global};

/// What is told by reading the tokens with a change of one of them.
#[derive(Clone, Copy)]
enum Trial {
    Semicolon,
    Statement,
    Run,
    Name,
    Nothing,
    Comma,
    SemicolonFor,
    OptionFor,
    Untold,
}

fn is_opener(tokens: &[Token<'_>], opener: Option<usize>) -> bool
    ensures { result ≡ trials.is_in_choice tokens.now opener }
{
    match opener {
        Some(at) => is_at(tokens, at, Kind::If) || is_at(tokens, at, Kind::Do),
        None => false,
    }
}

/// Whether `::` is wanted in front of an `else`: it stands in a selection or a loop, and not behind `::`.
fn wants_option(alloc: Global, tokens: &[Token<'_>], at: usize) -> Result<bool, AllocError>
    ensures { IfOk result (λ wants. wants ≡ true → kind tokens.now at ≡ Else) }
{
    if !is_at(tokens, at, Kind::Else) {
        return Ok(false);
    }
    let opener = opener_before(alloc, tokens, at)?;
    Ok(is_opener(tokens, opener))
}

/// Whether the token at a place begins with a letter.
fn is_word_at(tokens: &[Token<'_>], at: usize) -> bool {
    match tokens.get(at) {
        Some(token) => matches!(token.text(), [b'a'..=b'z' | b'A'..=b'Z', ..]),
        None => false,
    }
}

/// Whether an option stands behind a token: an `else`, or what has a `->`.
fn begins_option(tokens: &[Token<'_>], at: usize) -> bool {
    let behind = at.saturating_add(1);
    same_kind(kind_behind(tokens, at), Kind::Else)
        || arrow_between(tokens, behind, end_of_condition(tokens, behind)).is_some()
}

/// What is told by a `,` or a `:` that another sign may stand in place of.
fn by_sign(alloc: Global, tokens: &[Token<'_>], at: usize) -> Result<Trial, AllocError>
    ensures { IfOk result (λ trial. trials.is_sign trial ≡ true) }
{
    let kind = kind_at(tokens, at);
    let is_colon = same_kind(kind, Kind::Colon);
    if !is_colon && !same_kind(kind, Kind::Comma) {
        return Ok(Trial::Untold);
    }
    let double = Repair::Replace(Kind::DoubleColon, b"::");
    if is_colon && begins_option(tokens, at) && reads_on(alloc, tokens, at, double)? {
        return Ok(Trial::OptionFor);
    }
    if reads_on(alloc, tokens, at, Repair::Replace(Kind::Semicolon, b";"))? {
        Ok(Trial::SemicolonFor)
    } else {
        Ok(Trial::Untold)
    }
}

/// What is told by leaving a sign out, or by a `,` before a token.
fn by_less(alloc: Global, tokens: &[Token<'_>], at: usize) -> Result<Trial, AllocError>
    ensures { IfOk result (λ trial. trials.is_less trial ≡ true) }
{
    let is_sign = matches!(
        kind_at(tokens, at),
        Kind::Semicolon | Kind::Comma | Kind::Arrow | Kind::Dot
    );
    if is_sign && reads_on(alloc, tokens, at, Repair::Remove)? {
        return Ok(Trial::Nothing);
    }
    if reads_on(alloc, tokens, at, Repair::Insert(Kind::Comma, b","))? {
        Ok(Trial::Comma)
    } else {
        Ok(Trial::Untold)
    }
}

/// Whether a token is a word, and a name is wanted in place of it, and no statement.
fn is_name_wanted(alloc: Global, tokens: &[Token<'_>], at: usize) -> Result<bool, AllocError> {
    if !is_word_at(tokens, at) || may_stand(alloc, tokens, at, Kind::Goto, b"goto")? {
        return Ok(false);
    }
    reads_on(alloc, tokens, at, Repair::Replace(Kind::Name, b"x"))
}

/// What is told by reading the tokens with another one in the place of one of them.
fn by_change(alloc: Global, tokens: &[Token<'_>], at: usize) -> Result<Trial, AllocError>
    ensures { IfOk result (λ trial. trials.is_change trial ≡ true) }
{
    if same_kind(kind_at(tokens, at), Kind::Run) && !is_named_there(tokens, at) {
        return Ok(Trial::Run);
    }
    if is_name_wanted(alloc, tokens, at)? {
        return Ok(Trial::Name);
    }
    match by_sign(alloc, tokens, at)? {
        Trial::Untold => by_less(alloc, tokens, at),
        trial => Ok(trial),
    }
}

/// Whether a token seems to be a further field of a message: a number, or the last word of its statement.
fn is_field(tokens: &[Token<'_>], at: usize) -> bool {
    match kind_at(tokens, at) {
        Kind::Number => true,
        Kind::Name | Kind::True | Kind::False => {
            is_among(kind_behind(tokens, at), &STATEMENT_ENDS)
                && has_in_statement(tokens, at, &MESSAGES)
        }
        _ => false,
    }
}

/// What is told by reading the tokens with something in front of the one at `at`, which may begin a line.
fn tried(
    alloc: Global,
    tokens: &[Token<'_>],
    at: usize,
    begins: bool,
) -> Result<Trial, AllocError> {
    let comma = Repair::Insert(Kind::Comma, b",");
    if !begins && is_field(tokens, at) && reads_on(alloc, tokens, at, comma)? {
        return Ok(Trial::Comma);
    }
    tried_otherwise(alloc, tokens, at)
}

fn tried_otherwise(alloc: Global, tokens: &[Token<'_>], at: usize) -> Result<Trial, AllocError> {
    let semicolon = Repair::Insert(Kind::Semicolon, b";");
    if reads_on(alloc, tokens, at, semicolon)? {
        return Ok(Trial::Semicolon);
    }
    let skip = Repair::Insert(Kind::Skip, b"skip");
    if are_before(tokens, at, Kind::Name, Kind::Colon) && reads_on(alloc, tokens, at, skip)? {
        return Ok(Trial::Statement);
    }
    by_change(alloc, tokens, at)
}

/// The first token at or behind `at` that parts statements or opens something, or that is a `=`.
fn end_of_condition(tokens: &[Token<'_>], at: usize) -> usize {
    for (i, token) in from(tokens, at).iter().enumerate() {
        if matches!(
            token.kind(),
            Kind::Semicolon
                | Kind::DoubleColon
                | Kind::Assign
                | Kind::OpenBrace
                | Kind::CloseBrace
                | Kind::If
                | Kind::Fi
                | Kind::Do
                | Kind::Od
        ) {
            return at.saturating_add(i);
        }
    }
    tokens.len()
}

/// Whether an `if` or a `do` stands directly before what ends a statement, as one that is meant for its `fi` or `od`.
fn is_last_word(tokens: &[Token<'_>], at: usize) -> bool
    ensures { result ≡ beside.is_last_word tokens.now at }
{
    matches!(kind_at(tokens, at), Kind::If | Kind::Do)
        && matches!(
            kind_behind(tokens, at),
            Kind::CloseBrace | Kind::End | Kind::Semicolon | Kind::Fi | Kind::Od
        )
}

/// What is wanted in front of a token that begins a line, of a `;` or more, where this is open there.
fn at_line<'t>(
    text: &'t [u8],
    tokens: &[Token<'_>],
    opener: Option<usize>,
    at: usize,
) -> Expected<'t>
    ensures { sorts.is_between result ≡ true }
{
    let last = name_before(text, tokens, at, 1);
    match opener {
        Some(open) if is_opener(tokens, opener) => {
            let opening = name_at(text, tokens, open);
            if is_last_word(tokens, at) {
                Expected::Closer(opening)
            } else if !is_closed(tokens, open) {
                Expected::CloserAndSemicolon(opening)
            } else if arrow_between(tokens, at, end_of_condition(tokens, at)).is_some() {
                Expected::SemicolonOrOption(last)
            } else {
                Expected::SemicolonAtLineEnd(last)
            }
        }
        _ => Expected::SemicolonAtLineEnd(last),
    }
}

/// Whether a condition begins the option that a token stands in, and ends before the token.
pub fn is_behind_condition(tokens: &[Token<'_>], at: usize) -> bool {
    is_before(tokens, begin_of(tokens, at), 1, Kind::DoubleColon)
        && has_in_statement(tokens, at, &OF_CONDITIONS)
}

/// What is wanted in front of a token on the line of the one before it.
fn on_line<'t>(tokens: &[Token<'_>], at: usize) -> Expected<'t>
    ensures { sorts.is_between result ≡ true }
{
    if is_behind_condition(tokens, at) {
        Expected::Form(Foreign::Then)
    } else {
        Expected::Semicolon
    }
}

/// A `;` in front of a token, and where; `shown` is the token as it stands in the text.
fn semicolon<'t>(
    alloc: Global,
    text: &'t [u8],
    tokens: &[Token<'_>],
    at: usize,
    shown: Named<'t>,
) -> Result<Expected<'t>, AllocError>
    ensures { IfOk result (λ wish. sorts.is_between wish ≡ true) }
{
    let is_first = at > 0 && begins_line(text, shown.offset);
    if !is_first && !is_last_word(tokens, at) {
        return Ok(on_line(tokens, at));
    }
    let opener = opener_before(alloc, tokens, at)?;
    if is_first || is_opener(tokens, opener) {
        Ok(at_line(text, tokens, opener, at))
    } else {
        Ok(on_line(tokens, at))
    }
}

/// Whether a name is declared, or a label named, where a token stands.
fn is_declared_at(tokens: &[Token<'_>], at: usize) -> bool {
    is_before(tokens, at, 1, Kind::Goto)
        || is_before(tokens, at, 1, Kind::Proctype)
        || is_before(tokens, at, 1, Kind::OpenBrace)
        || is_declaration(tokens, at)
}

/// What is wanted in place of the token, or in front of it, but for a `;`.
fn by_trial<'t>(text: &'t [u8], tokens: &[Token<'_>], at: usize, trial: Trial) -> Expected<'t>
    ensures { sorts.is_of_change result ≡ true }
{
    match trial {
        Trial::Semicolon => Expected::Semicolon,
        Trial::Statement => Expected::Statement(name_before(text, tokens, at, 2).name),
        Trial::Run => Expected::NoRun,
        Trial::Name if is_among(kind_at(tokens, at), &STATEMENTS) && !is_declared_at(tokens, at) =>
            { Expected::Form(Foreign::StatementWord) }
        Trial::Name => Expected::Name,
        Trial::Nothing => Expected::Nothing,
        Trial::Comma => Expected::Comma,
        Trial::SemicolonFor => Expected::SemicolonFor,
        Trial::OptionFor => Expected::OptionFor,
        Trial::Untold => Expected::Untold,
    }
}

/// What may stand there, by class.
fn one_of<'t>(alloc: Global, tokens: &[Token<'_>], at: usize) -> Result<Expected<'t>, AllocError>
    ensures { IfOk result (λ wish. sorts.is_one_of wish ≡ true) }
{
    let classes = classes_at(alloc, tokens, at)?;
    if classes.first.is_none() {
        Ok(Expected::Untold)
    } else {
        Ok(Expected::OneOf(classes))
    }
}

/// What is told by a trial.
fn wanted_of<'t>(
    alloc: Global,
    text: &'t [u8],
    tokens: &[Token<'_>],
    at: usize,
    shown: Named<'t>,
    trial: Trial,
) -> Result<Expected<'t>, AllocError>
    ensures { IfOk result (λ wish. sorts.is_by_trial wish ≡ true) }
{
    match trial {
        Trial::Semicolon => semicolon(alloc, text, tokens, at, shown),
        Trial::Untold => one_of(alloc, tokens, at),
        trial => Ok(by_trial(text, tokens, at, trial)),
    }
}

/// What is wanted at a token, which stands so in the text.
pub fn wanted_by_trial<'t>(
    alloc: Global,
    text: &'t [u8],
    tokens: &[Token<'_>],
    at: usize,
    shown: Named<'t>,
) -> Result<Expected<'t>, AllocError>
    ensures { IfOk result (λ wish. sorts.is_by_trial wish ≡ true) }
{
    if wants_option(alloc, tokens, at)? {
        return Ok(Expected::OptionSign);
    }
    let trial = tried(alloc, tokens, at, begins_line(text, shown.offset))?;
    wanted_of(alloc, text, tokens, at, shown, trial)
}
