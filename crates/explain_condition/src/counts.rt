//! Wrong numbers of arguments, and labels.

ghost use Rattle.std.specs.Prelude.{◌≡◌, ◌≤◌, ◌-◌, length, take, true, option_map, IfSome, IfOk};
ghost use Rattle.explain_condition.specs.Causes.{is_count, is_label};

use crate::near::{InScope, nearest};
use crate::sign::{Lookup, NamedMark, Saying, first, first_name, front, place_of_name, sign_at};
use explain_cause::cause::{CountCause, Finding, LabelCause, NameSort, Named, Reason, Segment};
use explain_cause::place::{at_place, untold};
use promela_model::mark::Mark;
use std::alloc::{AllocError, Global};

/// A wrong number, and where it shows.
#[derive(Clone, Copy)]
struct Counted<'t> {
    place: Segment,
    cause: CountCause<'t>,
}

/// How many parameters a proctype has.
fn parameters(text: &[u8], marks: &[Mark<'_>], name: &[u8]) -> Option<usize> {
    match first(text, marks, Lookup::Proctype, name) {
        Some(sign) => match sign.matter {
            Saying::Proctype(count) => Some(count),
            _ => None,
        },
        None => None,
    }
}

fn of_run<'t>(
    text: &'t [u8],
    marks: &[Mark<'_>],
    name: Named<'t>,
    given: usize,
) -> Option<Counted<'t>>
    ensures { IfSome result (λ counted. counted.place.offset ≡ name.entry.offset) }
{
    let wanted = parameters(text, marks, name.name)?;
    let first = first_name(text, marks, Lookup::Declared(0), name.name)?;
    Some(Counted {
        place: place_of_name(name),
        cause: CountCause::Run(first, given, wanted),
    })
}

/// What the text of a `printf` takes.
#[derive(Clone, Copy)]
enum Conversions {
    Values(usize),
    /// So many bytes stand before a `%` with no conversion behind it.
    Bad(usize),
}

/// What stands at a byte of the text of a `printf`.
#[derive(Clone, Copy)]
enum Reading {
    Plain,
    Escaped,
    /// Behind the `%` at this place.
    Percent(usize),
}

/// What a text takes, without its last quote.
fn read_conversions(text: &[u8]) -> Conversions {
    let mut count = 0usize;
    let mut reading = Reading::Plain;
    for (i, byte) in text.iter().enumerate() {
        reading = match reading {
            Reading::Escaped => Reading::Plain,
            Reading::Plain => match *byte {
                b'%' => Reading::Percent(i),
                b'\\' => Reading::Escaped,
                _ => Reading::Plain,
            },
            Reading::Percent(place) => {
                if matches!(*byte, b'd' | b'u' | b'o' | b'x' | b'c' | b'e') {
                    count = count.saturating_add(1);
                } else if *byte != b'%' {
                    return Conversions::Bad(place);
                }
                Reading::Plain
            }
        };
    }
    match reading {
        Reading::Percent(place) => Conversions::Bad(place),
        _ => Conversions::Values(count),
    }
}

/// A string without its last quote.
fn without_quote(text: &[u8]) -> &[u8]
    ensures { result.now ≡ take (length text.now - 1) text.now }
{
    match text {
        [] => text,
        [front @ .., _] => front,
    }
}

/// Of a `%` in a text with no conversion behind it, before which so many bytes of the text stand.
fn of_percent<'t>(text: &[u8], start: usize, percent: usize) -> Counted<'t> {
    let offset = start.saturating_add(percent);
    match text.get(percent.saturating_add(1)) {
        Some(letter) => Counted {
            place: Segment { offset, length: 2 },
            cause: CountCause::Conversion(*letter),
        },
        None => Counted {
            place: Segment { offset, length: 1 },
            cause: CountCause::OpenConversion,
        },
    }
}

fn of_printf<'t>(printed: Named<'t>, given: usize) -> Counted<'t> {
    let text = without_quote(printed.name);
    match read_conversions(text) {
        Conversions::Values(wanted) => Counted {
            place: place_of_name(printed),
            cause: CountCause::Printf(given, wanted),
        },
        Conversions::Bad(percent) => of_percent(text, printed.offset, percent),
    }
}

fn of_sign<'t>(text: &'t [u8], marks: &[Mark<'_>], sign: NamedMark<'t>) -> Option<Counted<'t>> {
    match sign.matter {
        Saying::Run(given) => of_run(text, marks, sign.name, given),
        Saying::Print(given) => Some(of_printf(sign.name, given)),
        _ => None,
    }
}

fn told(counted: Option<Counted<'_>>) -> Finding<'_>
    ensures place { result.place ≡ option_map (λ c. c.place) counted.entry }
    ensures cause { is_count result.cause ≡ true }
{
    match counted {
        Some(counted) => at_place(counted.place, Reason::Count(counted.cause)),
        None => untold(),
    }
}

/// Of a run or a printf with another number of arguments, in the mark at `at`.
pub fn of_count<'t>(text: &'t [u8], marks: &[Mark<'_>], at: usize) -> Finding<'t>
    ensures { is_count result.cause ≡ true }
{
    told(of_sign(text, marks, sign_at(text, marks, at)))
}

/// A label, and what is told of it.
#[derive(Clone, Copy)]
struct Labelled<'t> {
    name: Named<'t>,
    cause: LabelCause<'t>,
}

/// The nearest label of one that is missing.
fn of_missing<'t>(
    alloc: Global,
    text: &'t [u8],
    marks: &[Mark<'_>],
    owner: usize,
    name: Named<'t>,
) -> Result<Option<Labelled<'t>>, AllocError>
    ensures { IfOk result (λ found. IfSome found (λ labelled. labelled.name.offset ≡ name.entry.offset)) }
{
    let sort = NameSort::Label;
    let near = nearest(alloc, text, marks, InScope { sort, owner }, name.name)?;
    let cause = LabelCause::Missing(name.name, near);
    Ok(Some(Labelled { name, cause }))
}

/// Of a label that is missing, or stands in another proctype.
fn of_goto<'t>(
    alloc: Global,
    text: &'t [u8],
    marks: &[Mark<'_>],
    owner: usize,
    name: Named<'t>,
) -> Result<Option<Labelled<'t>>, AllocError>
    ensures { IfOk result (λ found. IfSome found (λ labelled. labelled.name.offset ≡ name.entry.offset)) }
{
    match first_name(text, marks, Lookup::AnyLabel, name.name) {
        Some(other) => {
            let cause = LabelCause::Elsewhere(other);
            Ok(Some(Labelled { name, cause }))
        }
        None => of_missing(alloc, text, marks, owner, name),
    }
}

/// Of a label that stands among these marks already.
fn of_second<'t>(
    text: &'t [u8],
    before: &[Mark<'_>],
    owner: usize,
    name: Named<'t>,
) -> Option<Labelled<'t>>
    ensures { IfSome result (λ labelled. labelled.name.offset ≡ name.entry.offset) }
{
    match first_name(text, before, Lookup::Label(owner), name.name) {
        Some(first) => {
            let cause = LabelCause::Twice(first);
            Some(Labelled { name, cause })
        }
        None => None,
    }
}

fn label_at<'t>(
    alloc: Global,
    text: &'t [u8],
    marks: &[Mark<'_>],
    at: usize,
) -> Result<Option<Labelled<'t>>, AllocError> {
    let sign = sign_at(text, marks, at);
    match sign.matter {
        Saying::Label => Ok(of_second(text, front(marks, at), sign.owner, sign.name)),
        Saying::Goto => of_goto(alloc, text, marks, sign.owner, sign.name),
        _ => Ok(None),
    }
}

fn told_label(labelled: Option<Labelled<'_>>) -> Finding<'_>
    ensures { is_label result.cause ≡ true }
{
    match labelled {
        Some(found) => at_place(place_of_name(found.name), Reason::Label(found.cause)),
        None => untold(),
    }
}

/// Of a label that stands twice, or is missing, in the mark at `at`.
pub fn of_label<'t>(
    alloc: Global,
    text: &'t [u8],
    marks: &[Mark<'_>],
    at: usize,
) -> Result<Finding<'t>, AllocError>
    ensures { IfOk result (λ found. is_label found.cause ≡ true) }
{
    match label_at(alloc, text, marks, at) {
        Ok(labelled) => Ok(told_label(labelled)),
        Err(AllocError) => Err(AllocError),
    }
}
