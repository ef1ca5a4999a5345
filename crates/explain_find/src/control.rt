//! Breaks, d_steps and circles of gotos, by the plans of bodies.

ghost use Rattle.std.specs.Prelude.{◌≡◌, IfOk, IfSome, Some};
ghost use Rattle.pml_tree.specs.declared.tree.Tree.{Tree};
ghost use Rattle.pml_program.specs.declared.program.Program.{Program};
ghost use Rattle.promela_grammar.specs.Models.{Spells};
ghost use Rattle.check_resolve.specs.Model.{numbered_model};
ghost use Rattle.explain_control.specs.Blamed.{IsBlamedStepIn, IsBlamedCircleIn};
ghost use Rattle.explain_find.specs.Marks.{breaks_of, all_breaks};
ghost use Rattle.explain_find.specs.Control.{IsOfStep, IsOfCircle};

use crate::kept::nowhere;
use crate::tree::program_of;
use explain_cause::cause::{CircleLabels, ControlCause, Finding, Named, Reason, Segment};
use explain_cause::place::bytes_at;
use explain_control::body::{BadFirstPoint, Circle as Blamed};
use explain_control::proctypes::{breaks, first_bad_point, first_circle};
use explain_control::site::Label;
use pml_program::program::Program;
use pml_token::token::Token;
use sqlite_items::Boxed;
use std::alloc::{AllocError, Global};

fn breaks_in(
    alloc: Global,
    program: Option<Boxed<Program<'_>>>,
) -> Result<Vec<Option<u32>>, AllocError>
    ensures { (p : Program) → program.entry ≡ Some p → IfOk result (λ v. v.items ≡ breaks_of p) }
{
    match program {
        Some(program) => breaks(alloc, program.get().proctypes.as_slice()),
        None => Ok(Vec::new(alloc)),
    }
}

/// How many bytes of the text stand before each `break`, in the order of their marks.
pub fn breaks_of<'a>(alloc: Global, tokens: &'a [Token<'a>]) -> Result<Vec<Option<u32>>, AllocError>
    ensures { (t : Tree) → Spells t tokens.now → IfOk result (λ v. v.items ≡ all_breaks t) }
{
    match program_of(alloc, tokens) {
        Ok(program) => breaks_in(alloc, program),
        Err(AllocError) => Err(AllocError),
    }
}

fn bad_point_in(
    alloc: Global,
    program: Option<Boxed<Program<'_>>>,
) -> Result<Option<BadFirstPoint>, AllocError>
    ensures { (p : Program) → program.entry ≡ Some p → IfOk result (λ o. IfSome o (IsBlamedStepIn p.proctypes)) }
{
    match program {
        Some(program) => first_bad_point(alloc, program.get().proctypes.as_slice()),
        None => Ok(None),
    }
}

fn bad_point_of<'a>(
    alloc: Global,
    tokens: &'a [Token<'a>],
) -> Result<Option<BadFirstPoint>, AllocError>
    ensures { (t : Tree) → Spells t tokens.now → IfOk result (λ o. IfSome o (IsBlamedStepIn (numbered_model t).proctypes)) }
{
    match program_of(alloc, tokens) {
        Ok(program) => bad_point_in(alloc, program),
        Err(AllocError) => Err(AllocError),
    }
}

fn circle_in(
    alloc: Global,
    program: Option<Boxed<Program<'_>>>,
) -> Result<Option<Blamed>, AllocError>
    ensures { (p : Program) → program.entry ≡ Some p → IfOk result (λ o. IfSome o (IsBlamedCircleIn p.proctypes)) }
{
    match program {
        Some(program) => first_circle(alloc, program.get().proctypes.as_slice()),
        None => Ok(None),
    }
}

fn blamed_circle<'a>(alloc: Global, tokens: &'a [Token<'a>]) -> Result<Option<Blamed>, AllocError>
    ensures { (t : Tree) → Spells t tokens.now → IfOk result (λ o. IfSome o (IsBlamedCircleIn (numbered_model t).proctypes)) }
{
    match program_of(alloc, tokens) {
        Ok(program) => circle_in(alloc, program),
        Err(AllocError) => Err(AllocError),
    }
}

/// The word at a place of the text.
fn word_at<'t>(text: &'t [u8], offset: u32, word: &[u8]) -> Named<'t>
    ensures { result.offset ≡ offset }
{
    let place = Segment {
        offset: offset as usize,
        length: word.len(),
    };
    Named {
        name: bytes_at(text, place),
        offset: place.offset,
    }
}

/// The `goto` or the `break` at a place of the text.
fn leap_at<'t>(text: &'t [u8], offset: u32) -> Named<'t>
    ensures { result.offset ≡ offset }
{
    let word = word_at(text, offset, b"break");
    if word.name == b"break".as_slice() {
        word
    } else {
        word_at(text, offset, b"goto")
    }
}

/// What is found at a word of the text.
fn at_word<'t>(word: Named<'t>, cause: ControlCause<'t>) -> Finding<'t>
    ensures { IfSome result.place (λ p. p.offset ≡ word.entry.offset) }
{
    let place = Segment {
        offset: word.offset,
        length: word.name.len(),
    };
    Finding {
        place: Some(place),
        cause: Reason::Control(cause),
    }
}

fn told_point<'t>(text: &'t [u8], step: u32, point: u32, is_else: bool) -> Finding<'t>
    ensures { IfSome result.place (λ p. p.offset ≡ point) }
{
    let step = word_at(text, step, b"d_step");
    if is_else {
        at_word(word_at(text, point, b"else"), ControlCause::FirstElse(step))
    } else {
        at_word(leap_at(text, point), ControlCause::FirstLeaves(step))
    }
}

/// Of a d_step whose first point is outside of it, or an `else` by itself.
pub fn of_first_point<'t, 'a>(
    alloc: Global,
    text: &'t [u8],
    tokens: &'a [Token<'a>],
) -> Result<Finding<'t>, AllocError>
    ensures { (t : Tree) → Spells t tokens.now → IfOk result (λ f. IfSome f.place (IsOfStep t)) }
{
    let Some(bad) = bad_point_of(alloc, tokens)? else {
        return Ok(nowhere());
    };
    match (bad.step, bad.point) {
        (Some(step), Some(point)) => Ok(told_point(text, step, point, bad.is_else)),
        _ => Ok(nowhere()),
    }
}

/// The name of a label of a circle, or an empty one where there are fewer.
fn label_at<'t>(text: &'t [u8], labels: &[Label], at: usize) -> &'t [u8] {
    match labels.get(at) {
        Some(label) => bytes_at(
            text,
            Segment {
                offset: label.offset as usize,
                length: label.length,
            },
        ),
        None => &text[..0],
    }
}

fn told_circle<'t>(text: &'t [u8], goto: u32, labels: &[Label]) -> Finding<'t>
    ensures { IfSome result.place (λ p. p.offset ≡ goto) }
{
    let circle = CircleLabels {
        count: labels.len(),
        first: label_at(text, labels, 0),
        second: label_at(text, labels, 1),
        third: label_at(text, labels, 2),
    };
    at_word(word_at(text, goto, b"goto"), ControlCause::Circle(circle))
}

/// Of a circle of gotos.
pub fn of_circle<'t, 'a>(
    alloc: Global,
    text: &'t [u8],
    tokens: &'a [Token<'a>],
) -> Result<Finding<'t>, AllocError>
    ensures { (t : Tree) → Spells t tokens.now → IfOk result (λ f. IfSome f.place (IsOfCircle t)) }
{
    let Some(circle) = blamed_circle(alloc, tokens)? else {
        return Ok(nowhere());
    };
    match circle.goto {
        Some(goto) => Ok(told_circle(text, goto, &circle.labels)),
        None => Ok(nowhere()),
    }
}
