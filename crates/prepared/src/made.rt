//! What is made of a text, and what is said of it.

ghost use Rattle.std.specs.Prelude.{◌≡◌, ◌≤◌, length, IfOk};
ghost use Rattle.std.specs.List.{list_all};
ghost use Rattle.prepare.specs.declared.TheConstants.{MOST_BYTES};
ghost use Rattle.prepare.specs.Stretches as as_stretches;
ghost use Rattle.prepare.specs.Spelling as as_spelling;
ghost use Rattle.prepare.specs.Laws as laws;
ghost use Rattle.mtype_commas.specs.Writing.{punctuated};
ghost use Rattle.declared_steps.specs.Writing.{stepped};
ghost use Rattle.listed_values.specs.Writing.{valued};
ghost use Rattle.record_messages.specs.Writing.{recorded};
ghost use Rattle.prepared.specs.Made.{rewritten, TellsTokens, IsDivided, IsMadeOf, IsPreparedOf};

use crate::given::How;
use crate::kinds::Topic;
use crate::lines::lines_of;
use crate::model::{Left, model_text};
use crate::report::{Called, PreparingReport};
use crate::unprepared::Unprepared;
use called_macros::origin::Origin;
use computed_sizes::writing::with_sizes;
use declared_steps::writing::{Stepped, with_steps};
use listed_values::writing::{ValuedText, with_values};
use mtype_commas::writing::with_commas;
use names_apart::apart::{DividedText, divide_names};
use names_apart::candidates::{DividedSort, candidates};
use pml_token::token::{Kind, same_kind};
use prepare::MOST_BYTES;
use prepare::changes::{exchanges, respelled};
use prepare::coding::coded;
use prepare::numbering::numbered;
use prepare::spelling::spelled;
use prepare::stretch::{Stretch, StretchForm};
use prepare::stretches::stretches;
use record_messages::writing::with_fields;
use std::alloc::{AllocError, Global};

/// What is prepared of a text.
#[derive(Drop)]
pub struct Prepared {
    pub text: Vec<u8>,
    /// Where the lines of included files stand in it.
    pub lines: Vec<u8>,
    /// The tokens that it came of, if some came of the body of a macro.
    pub origin: Option<Origin>,
    /// What is to be said of it.
    pub said: String,
    /// Whether something is left that is not played.
    pub is_left: bool,
}

// Whether a token is that of a block, or one that the language has.
fn is_token(stretch: &Stretch<'_>) -> bool
    ensures { result ≡ laws.is_token stretch.now }
{
    matches!(stretch.form(), StretchForm::Blanked) || !same_kind(stretch.kind(), Kind::LeftOut)
}

// Whether all are.
fn are_tokens(stretches: &[Stretch<'_>]) -> bool
    ensures { result ≡ list_all laws.is_token stretches.now }
{
    for stretch in stretches {
        if !is_token(stretch) {
            return false;
        }
    }
    true
}

// What is made of a text by its ends of lines and its blocks.
#[derive(Drop)]
struct WithSeparators {
    text: Vec<u8>,
    // whether its tokens are such as the language has, but for those of blocks
    are_tokens: bool,
}

// What is made of a text by its ends of lines and its blocks, of which the report hears.
fn separated<'t>(
    alloc: Global,
    text: &'t [u8],
    report: &mut PreparingReport<'t>,
) -> Result<WithSeparators, AllocError>
    ensures text { IfOk result (λ s. s.text.items ≡ as_spelling.spelled (as_stretches.stretches text.now)) }
    ensures tokens { IfOk result (λ s. s.are_tokens ≡ laws.has_tokens_alone text.now) }
{
    let stretches = stretches(alloc, text)?;
    for stretch in &stretches {
        report.stretch(stretch);
    }
    report.again();
    let are_tokens = are_tokens(&stretches);
    let text = spelled(alloc, &stretches)?;
    Ok(WithSeparators { text, are_tokens })
}

// What is made of it then by its subtypes and its loops over arrays, of which the report hears.
fn exchanged<'t>(
    alloc: Global,
    text: &'t [u8],
    report: &mut PreparingReport<'t>,
) -> Result<Vec<u8>, AllocError>
    ensures { IfOk result (λ v. v.items ≡ laws.exchanged text.now) }
{
    let tokens = stretches(alloc, text)?;
    let exchanges = exchanges(alloc, &tokens)?;
    drop(tokens);
    for exchange in &exchanges {
        report.exchange(exchange);
    }
    respelled(alloc, &exchanges)
}

// What is made of it by its lists of initialisers and by its declarations that are steps, of which the report hears.
fn with_assignments(
    alloc: Global,
    text: Vec<u8>,
    report: &mut PreparingReport<'_>,
) -> Result<Vec<u8>, AllocError>
    ensures { IfOk result (λ v. v.items ≡ stepped (valued text.items)) }
{
    let ValuedText { text, lines } = with_values(alloc, text)?;
    for line in &lines {
        report.add(Topic::Valued, b"", *line);
    }
    let Stepped { text, lines } = with_steps(alloc, text)?;
    for line in &lines {
        report.add(Topic::Stepped, b"", *line);
    }
    Ok(text)
}

// What is made of it by these, and by its records that are messages.
fn with_records(
    alloc: Global,
    text: Vec<u8>,
    report: &mut PreparingReport<'_>,
) -> Result<Vec<u8>, AllocError>
    ensures { IfOk result (λ v. v.items ≡ recorded (stepped (valued text.items))) }
{
    let text = with_assignments(alloc, text, report)?;
    with_fields(alloc, text)
}

// Tells the report of the loops over arrays and of the lists that are left.
fn tell_left<'t>(
    alloc: Global,
    tokens: &[Stretch<'t>],
    report: &mut PreparingReport<'t>,
) -> Result<(), AllocError> {
    if report.has_loops() {
        report.again();
        for exchange in &exchanges(alloc, tokens)? {
            report.left_loop(exchange);
        }
    }
    report.again();
    for stretch in tokens {
        report.left_list(stretch);
    }
    Ok(())
}

// A text that is made, with what is said of it.
#[derive(Drop)]
struct Made {
    text: Vec<u8>,
    said: String,
    is_left: bool,
}

// What is made of a text at last by its blocks and inlines that declare a name several times, of which the report hears.
fn divided<'t>(
    alloc: Global,
    text: &'t [u8],
    report: PreparingReport<'t>,
    called: Called<'_>,
) -> Result<Made, AllocError>
    ensures { IfOk result (λ m. IsDivided text.now m.text.items) }
{
    let mut report = report;
    let tokens = stretches(alloc, text)?;
    let names = candidates(alloc, &tokens)?;
    tell_left(alloc, &tokens, &mut report)?;
    drop(tokens);
    let mut copy = Vec::new(alloc);
    copy.extend_from_slice(text)?;
    let DividedText { text, names } = divide_names(alloc, &names, copy)?;
    for candidate in &names {
        let what = match candidate.sort {
            DividedSort::Variables => Topic::Divided,
            DividedSort::Labels => Topic::Labelled,
        };
        report.add(what, candidate.name, candidate.line);
    }
    let (said, is_left) = report.end(called);
    Ok(Made {
        text,
        said,
        is_left,
    })
}

// What is made of a text with its separators and its sizes, of which the report has heard.
fn made_of_separated<'t>(
    alloc: Global,
    text: &'t [u8],
    report: PreparingReport<'t>,
    called: Called<'_>,
) -> Result<Made, AllocError>
    ensures { IfOk result (λ m. IsDivided (recorded (stepped (valued (laws.exchanged text.now)))) m.text.items) }
{
    let mut report = report;
    let exchanged = exchanged(alloc, text, &mut report)?;
    let recorded = with_records(alloc, exchanged, &mut report)?;
    divided(alloc, &recorded, report, called)
}

// What is made of a text whose lists have their commas.
fn made_of(alloc: Global, text: &[u8], called: Called<'_>) -> Result<Made, AllocError>
    requires { length text.now ≤ MOST_BYTES }
    ensures made { IfOk result (λ m. IsDivided (recorded (stepped (valued (rewritten text.now)))) m.text.items) }
    ensures told { IfOk result (λ m. TellsTokens m.is_left text.now) }
{
    let lines = numbered(alloc, text)?;
    let numbers = coded(alloc, &lines)?;
    let mut report = PreparingReport::new(alloc);
    let separated = separated(alloc, &numbers, &mut report)?;
    let sized = with_sizes(alloc, &separated.text)?;
    let Made {
        text,
        said,
        is_left,
    } = made_of_separated(alloc, &sized, report, called)?;
    Ok(Made {
        text,
        said,
        is_left: is_left || !separated.are_tokens,
    })
}

// What is made of a text, with commas between the names of each `mtype`.
fn made_with_commas(alloc: Global, text: &[u8], called: Called<'_>) -> Result<Made, AllocError>
    requires { length text.now ≤ MOST_BYTES }
    ensures made { IfOk result (λ m. IsDivided (recorded (stepped (valued (rewritten (punctuated text.now))))) m.text.items) }
    ensures told { IfOk result (λ m. TellsTokens m.is_left (punctuated text.now)) }
{
    let punctuated = with_commas(alloc, text)?;
    made_of(alloc, &punctuated, called)
}

/// What is prepared of a text that is without `#` lines and macros.
pub fn prepared_from(alloc: Global, left: Left, called: Called<'_>) -> Result<Prepared, Unprepared>
    ensures { IfOk result (IsMadeOf left.text.items) }
{
    let Left { text, origin } = left;
    if text.len() > MOST_BYTES {
        return Err(Unprepared::TooLong);
    }
    let lines = lines_of(alloc, &text)?;
    let made = made_with_commas(alloc, &text, called)?;
    Ok(Prepared {
        text: made.text,
        lines,
        origin,
        said: made.said,
        is_left: made.is_left,
    })
}

/// What is prepared of an author's text, in the way that is asked for.
pub fn prepared_of(
    rt: &HostRuntime,
    how: &How,
    text: &[u8],
    called: Called<'_>,
) -> Result<Prepared, Unprepared>
    ensures { IfOk result (IsPreparedOf how.now text.now) }
{
    let left = model_text(rt, how, called, text)?;
    prepared_from(rt.alloc(), left, called)
}
