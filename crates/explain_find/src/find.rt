//! Why a text is refused, and where.

ghost use Rattle.std.specs.Prelude.{◌≡◌, Bool, true, IfOk, IfSome, MatchOption, Some, drop};
ghost use Rattle.diagnostics.specs.declared.refusal.Refusal.{Refusal};
ghost use Rattle.pml_tree.specs.declared.tree.Tree.{Tree};
ghost use Rattle.promela_grammar.specs.Models.{Spells};
ghost use Rattle.explain_tokens.specs.Placed.{ArePlaced, IsUnplaced};
ghost use Rattle.pml_inline.specs.Least.{IsLeast};
ghost use Rattle.promela_model.specs.Marks.{of_tree};
ghost use Rattle.check_conditions.specs.First.{FindsFirst};
ghost use Rattle.explain_find.specs.Marks.{condition_of, all_breaks, first_is_told, IsOfMark, NoneBreaks};
ghost use Rattle.explain_find.specs.Found.{IsBroken};
ghost use Rattle.explain_find.specs.Told.{IsOfWhole, IsOfTree, IsOfExpanded, IsOfTokens, IsTold};

use crate::control::{breaks_of, of_circle, of_first_point};
use crate::fields::with_fields;
use crate::initialiser::of_initialiser;
use crate::kept::{at_break, at_left_out, at_mark, at_stop, nowhere, placeless, there};
use crate::misused::of_misuse;
use crate::tree::marks_of;
use check_conditions::first::first_broken;
use check_names::names::all_names;
use diagnostics::Refusal;
use explain_cause::cause::{Finding, TextCause};
use explain_cause::lexical::{left_out, returned, too_deep, too_long, uncut};
use explain_cause::place::untold;
use explain_condition::control::{of_break, of_step};
use explain_condition::counts::{of_count, of_label};
use explain_condition::names::{of_twice, of_unknown};
use explain_condition::range::{of_cells, of_range};
use explain_condition::start::{of_none, of_start};
use explain_condition::wrong::of_wrong;
use explain_syntax::of_syntax;
use explain_tokens::placed;
use pml_inline::expand;
use pml_lex::fault::LexError;
use pml_token::token::Token;
use promela_model::condition::Condition;
use promela_model::mark::Mark;
use promela_text::inline_fault::InlineError;
use promela_text::misuse::Limit;
use std::alloc::{AllocError, Global};

/// The condition on the marks that a refusal is about.
fn condition_of(refusal: Refusal) -> Option<Condition>
    ensures { result ≡ condition_of refusal }
{
    match refusal {
        Refusal::NameTwice => Some(Condition::Twice),
        Refusal::UnknownName => Some(Condition::Unknown),
        Refusal::WrongKind => Some(Condition::Wrong),
        Refusal::ArgumentCount => Some(Condition::Arguments),
        Refusal::Label => Some(Condition::Label),
        Refusal::BreakOutsideDo => Some(Condition::Break),
        Refusal::DStep => Some(Condition::Step),
        Refusal::NumberOutOfRange => Some(Condition::Range),
        Refusal::TooManyCells => Some(Condition::Cells),
        _ => None,
    }
}

/// A condition, and the mark that breaks it first.
#[derive(Clone, Copy)]
struct Broken {
    condition: Condition,
    at: usize,
}

/// The first mark that breaks a condition.
fn first_of(
    alloc: Global,
    condition: Condition,
    marks: &[Mark<'_>],
) -> Result<Option<usize>, AllocError>
    ensures { IfOk result (FindsFirst condition marks.now) }
{
    let all = all_names(alloc, marks)?;
    first_broken(alloc, condition, &all.table, marks)
}

/// What a refusal is about, if that is a condition on the marks, and one of them breaks it.
fn first_broken_by(
    alloc: Global,
    refusal: Refusal,
    marks: &[Mark<'_>],
) -> Result<Option<Broken>, AllocError>
    ensures { IfOk result (λ o. MatchOption o (NoneBreaks refusal marks.now) (IsBroken refusal marks.now)) }
{
    let Some(condition) = condition_of(refusal) else {
        return Ok(None);
    };
    match first_of(alloc, condition, marks)? {
        Some(at) => Ok(Some(Broken { condition, at })),
        None => Ok(None),
    }
}

/// What is found at a mark that breaks a condition on control.
fn of_controlled<'t, 'a>(
    alloc: Global,
    broken: Broken,
    text: &'t [u8],
    tokens: &'a [Token<'a>],
    marks: &[Mark<'_>],
) -> Result<Finding<'t>, AllocError>
    ensures { (t : Tree) → Spells t tokens.now → IfOk result (λ f. IfSome f.place (IsOfMark tokens.now (all_breaks t) marks.now broken.at)) }
{
    let breaks = breaks_of(alloc, tokens)?;
    let finding = match broken.condition {
        Condition::Step => of_step(alloc, text, tokens, &breaks, marks, broken.at)?,
        _ => of_break(&breaks, marks, broken.at),
    };
    Ok(at_break(tokens, &breaks, marks, broken.at, finding))
}

/// What is found at a name that is not declared.
fn of_name<'t>(
    alloc: Global,
    text: &'t [u8],
    tokens: &[Token<'_>],
    marks: &[Mark<'_>],
    at: usize,
) -> Result<Finding<'t>, AllocError> {
    match of_unknown(alloc, text, marks, at) {
        Ok(finding) => Ok(with_fields(text, tokens, finding)),
        Err(AllocError) => Err(AllocError),
    }
}

/// What is found at the mark that breaks a condition on names, kinds, counts or ranges.
fn found_at<'t>(
    alloc: Global,
    broken: Broken,
    text: &'t [u8],
    tokens: &[Token<'_>],
    marks: &[Mark<'_>],
) -> Result<Finding<'t>, AllocError> {
    let at = broken.at;
    match broken.condition {
        Condition::Unknown => of_name(alloc, text, tokens, marks, at),
        Condition::Wrong => of_wrong(alloc, text, tokens, marks, at),
        Condition::Label => of_label(alloc, text, marks, at),
        condition => Ok(of_plain(condition, text, tokens, marks, at)),
    }
}

/// The same, whose place is that of the mark.
fn of_judged<'t>(
    alloc: Global,
    broken: Broken,
    text: &'t [u8],
    tokens: &[Token<'_>],
    marks: &[Mark<'_>],
) -> Result<Finding<'t>, AllocError>
    ensures { IfOk result (λ f. IfSome f.place (λ p. first_is_told tokens.now (drop broken.at marks.now) p ≡ true)) }
{
    match found_at(alloc, broken, text, tokens, marks) {
        Ok(finding) => Ok(at_mark(tokens, marks, broken.at, finding)),
        Err(AllocError) => Err(AllocError),
    }
}

/// What is found at the mark that breaks a condition.
fn of_mark<'t, 'a>(
    alloc: Global,
    broken: Broken,
    text: &'t [u8],
    tokens: &'a [Token<'a>],
    marks: &[Mark<'_>],
) -> Result<Finding<'t>, AllocError>
    ensures { (t : Tree) → Spells t tokens.now → IfOk result (λ f. IfSome f.place (IsOfMark tokens.now (all_breaks t) marks.now broken.at)) }
{
    match broken.condition {
        Condition::Break | Condition::Step => of_controlled(alloc, broken, text, tokens, marks),
        _ => of_judged(alloc, broken, text, tokens, marks),
    }
}

/// What is found there without memory.
fn of_plain<'t>(
    condition: Condition,
    text: &'t [u8],
    tokens: &[Token<'_>],
    marks: &[Mark<'_>],
    at: usize,
) -> Finding<'t> {
    match condition {
        Condition::Twice => of_twice(text, marks, at),
        Condition::Arguments => of_count(text, marks, at),
        Condition::Range => of_range(text, tokens, marks, at),
        Condition::Cells => of_cells(text, marks, at),
        _ => untold(),
    }
}

/// Of a text with these marks, none of which breaks a condition.
fn of_whole<'t, 'a>(
    alloc: Global,
    refusal: Refusal,
    text: &'t [u8],
    tokens: &'a [Token<'a>],
    marks: &[Mark<'_>],
) -> Result<Finding<'t>, AllocError>
    ensures { (t : Tree) → Spells t tokens.now → IfOk result (λ f. IfSome f.place (IsOfWhole refusal t)) }
{
    match refusal {
        Refusal::DStep => of_first_point(alloc, text, tokens),
        Refusal::CircleOfGotos => of_circle(alloc, text, tokens),
        Refusal::NoProcess => Ok(of_none(text, marks)),
        Refusal::TooManyAtStart => of_start(alloc, text, marks),
        Refusal::Initialiser => of_initialiser(alloc, text, tokens, marks),
        _ => Ok(nowhere()),
    }
}

/// Of a text that has marks.
fn of_marks<'t, 'a>(
    alloc: Global,
    refusal: Refusal,
    text: &'t [u8],
    tokens: &'a [Token<'a>],
    marks: &[Mark<'_>],
) -> Result<Finding<'t>, AllocError>
    ensures { (t : Tree) → Spells t tokens.now → marks.now ≡ of_tree t → IfOk result (λ f. IfSome f.place (IsOfTree refusal tokens.now t)) }
{
    match first_broken_by(alloc, refusal, marks) {
        Ok(Some(broken)) => of_mark(alloc, broken, text, tokens, marks),
        Ok(None) => of_whole(alloc, refusal, text, tokens, marks),
        Err(AllocError) => Err(AllocError),
    }
}

/// The same tokens once more, which a tree may borrow.
fn copied<'t>(alloc: Global, tokens: &[Token<'t>]) -> Result<Vec<Token<'t>>, AllocError>
    ensures { IfOk result (λ v. v.items ≡ tokens.now) }
{
    let mut list = Vec::with_capacity(alloc, tokens.len())?;
    for token in tokens {
        list.push(token.copied())?;
    }
    Ok(list)
}

/// Of tokens that the tree may borrow; `originals` are those of the text.
fn of_list<'t, 'a>(
    alloc: Global,
    refusal: Refusal,
    text: &'t [u8],
    originals: &[Token<'t>],
    list: &'a [Token<'a>],
) -> Result<Finding<'t>, AllocError>
    ensures { IfOk result (λ f. IfSome f.place (IsOfExpanded refusal list.now)) }
{
    match marks_of(alloc, list) {
        Ok(Ok(marks)) => of_marks(alloc, refusal, text, list, marks.as_slice()),
        Ok(Err(line)) => of_syntax(alloc, text, originals, list, line),
        Err(AllocError) => Err(AllocError),
    }
}

/// Of tokens in which the calls of inlines are replaced; `originals` are those of the text.
fn of_expanded<'t>(
    alloc: Global,
    refusal: Refusal,
    text: &'t [u8],
    originals: &[Token<'t>],
    tokens: &[Token<'t>],
) -> Result<Finding<'t>, AllocError>
    ensures { IfOk result (λ f. IfSome f.place (IsOfExpanded refusal tokens.now)) }
{
    match copied(alloc, tokens) {
        Ok(list) => of_list(alloc, refusal, text, originals, &list),
        Err(AllocError) => Err(AllocError),
    }
}

/// What is told of a limit that is passed.
fn limit_of<'t>(limit: Limit) -> TextCause<'t> {
    match limit {
        Limit::Open => TextCause::Nested,
        Limit::Row => TextCause::Row,
    }
}

/// Of tokens that have no expansion.
fn of_fault<'t>(
    text: &'t [u8],
    tokens: &[Token<'t>],
    fault: InlineError,
) -> Result<Finding<'t>, AllocError>
    requires { IsLeast tokens.now fault }
    ensures { (x : Refusal) → IfOk result (λ f. IfSome f.place (IsOfTokens x tokens.now)) }
{
    match fault {
        InlineError::Inline(misuse) => Ok(of_misuse(text, tokens, misuse)),
        InlineError::TooDeep(offset, limit) => Ok(too_deep(tokens, offset, limit_of(limit))),
        InlineError::Memory => Err(AllocError),
    }
}

/// Of tokens that are all of the language.
fn of_words<'t>(
    alloc: Global,
    refusal: Refusal,
    text: &'t [u8],
    tokens: &[Token<'t>],
) -> Result<Finding<'t>, AllocError>
    ensures { IfOk result (λ f. IfSome f.place (IsOfTokens refusal tokens.now)) }
{
    match expand(alloc, tokens) {
        Ok(expanded) => of_expanded(alloc, refusal, text, tokens, &expanded),
        Err(fault) => of_fault(text, tokens, fault),
    }
}

/// Of the tokens of a text, by how far they are read.
fn of_read<'t>(
    alloc: Global,
    refusal: Refusal,
    text: &'t [u8],
    tokens: &[Token<'t>],
) -> Result<Finding<'t>, AllocError>
    ensures { IfOk result (λ f. IfSome f.place (IsOfTokens refusal tokens.now)) }
{
    match returned(text, tokens).or(left_out(text, tokens)) {
        Some(finding) => Ok(at_left_out(tokens, finding)),
        None => of_words(alloc, refusal, text, tokens),
    }
}

/// Of the tokens of a text.
fn of_tokens<'t>(
    alloc: Global,
    refusal: Refusal,
    text: &'t [u8],
    tokens: &[Token<'t>],
) -> Result<Finding<'t>, AllocError>
    requires { ArePlaced text.now tokens.now }
    ensures { IfOk result (λ f. IfSome f.place (IsTold text.now refusal)) }
{
    match of_read(alloc, refusal, text, tokens) {
        Ok(finding) => Ok(there(refusal, text, tokens, finding)),
        Err(AllocError) => Err(AllocError),
    }
}

/// Of a text that has no tokens.
fn of_text<'t>(text: &'t [u8], fault: LexError) -> Result<Finding<'t>, AllocError>
    requires { IsUnplaced text.now fault }
    ensures { (x : Refusal) → IfOk result (λ f. IfSome f.place (IsTold text.now x)) }
{
    match fault {
        LexError::TooLong => Ok(placeless(too_long(text))),
        LexError::Lexical(offset) => {
            let at = offset as usize;
            Ok(at_stop(text, at, uncut(text, at)))
        }
        LexError::LeftOut(_) => Ok(nowhere()),
        LexError::Memory => Err(AllocError),
    }
}

/// Why a text is refused with this refusal, and where.
pub fn cause_of<'t>(
    alloc: Global,
    text: &'t [u8],
    refusal: Refusal,
) -> Result<Finding<'t>, AllocError>
    // Where a place is told, it is one of those that are told of this refusal of the text.
    ensures { IfOk result (λ f. IfSome f.place (IsTold text.now refusal)) }
{
    match placed(alloc, text) {
        Ok(tokens) => of_tokens(alloc, refusal, text, &tokens),
        Err(fault) => of_text(text, fault),
    }
}
