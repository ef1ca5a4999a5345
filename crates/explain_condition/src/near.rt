//! The nearest name.

ghost use Rattle.std.specs.Prelude.{◌≡◌, ◌<◌, ◌≤◌, length, true, IfSome, IfOk};
ghost use Rattle.explain_condition.specs.Causes.{is_of_sort};

use crate::sign::{NamedMark, Saying, sign_of};
use explain_cause::cause::{NameSort, Named};
use promela_model::mark::Mark;
use std::alloc::{AllocError, Global};
use std::str;
use strsim::osa_distance;

/// Longer names are not compared.
const MOST_COMPARED: usize = 32;

/// What may stand at a place: names of this sort, which the owner sees.
#[derive(Clone, Copy)]
pub struct InScope {
    pub sort: NameSort,
    /// Of a field the typedef, of all else the owner of the place.
    pub owner: usize,
}

/// Whether what a mark says gives a name of a sort. A constant may stand where a variable may.
fn is_of(matter: Saying, sort: NameSort) -> bool
    ensures { result ≡ is_of_sort matter sort }
{
    match matter {
        Saying::Variable => matches!(sort, NameSort::Variable),
        Saying::Field => matches!(sort, NameSort::Field),
        Saying::Constant => matches!(sort, NameSort::Variable | NameSort::Constant),
        Saying::Typedef(_) => matches!(sort, NameSort::Typedef),
        Saying::Proctype(_) => matches!(sort, NameSort::Proctype),
        Saying::Label => matches!(sort, NameSort::Label),
        _ => false,
    }
}

/// Whether names of a sort are seen where an owner's are used.
fn is_seen(owner: usize, wish: InScope) -> bool {
    owner == wish.owner || (owner == 0 && !matches!(wish.sort, NameSort::Field | NameSort::Label))
}

/// Whether the name that a mark gives may stand there.
fn may_stand(sign: NamedMark<'_>, wish: InScope) -> bool
    ensures { result ≡ true → is_of_sort sign.entry.matter wish.sort ≡ true }
{
    is_seen(sign.owner, wish) && is_of(sign.matter, wish.sort)
}

/// How many letters differ, are put in, left out or swapped, at most a third of them.
fn distance(alloc: Global, name: &[u8], other: &[u8]) -> Result<Option<usize>, AllocError>
    ensures { IfOk result (λ most. IfSome most (λ count. count < length name.now)) }
{
    if name.len() > MOST_COMPARED || other.len() > MOST_COMPARED {
        return Ok(None);
    }
    let (Ok(a), Ok(b)) = (str::from_utf8(name), str::from_utf8(other)) else {
        return Ok(None);
    };
    let count = osa_distance(alloc, a, b)?;
    let most = (name.len().max(other.len()) / 3).max(1);
    if count <= most && count < name.len() {
        Ok(Some(count))
    } else {
        Ok(None)
    }
}

/// The words that begin something, or stand for a value.
const WORDS: [&[u8]; 44] = [
    b"active",
    b"assert",
    b"atomic",
    b"bool",
    b"break",
    b"byte",
    b"chan",
    b"d_step",
    b"else",
    b"empty",
    b"eval",
    b"false",
    b"full",
    b"goto",
    b"hidden",
    b"init",
    b"inline",
    b"int",
    b"local",
    b"mtype",
    b"nempty",
    b"nfull",
    b"printf",
    b"printm",
    b"proctype",
    b"run",
    b"select",
    b"short",
    b"show",
    b"skip",
    b"timeout",
    b"true",
    b"typedef",
    b"unless",
    b"unsigned",
    b"for",
    b"bit",
    b"pid",
    b"len",
    b"of",
    b"do",
    b"if",
    b"od",
    b"fi",
];

/// Shorter names are near to no word.
const LEAST_NEAR: usize = 3;

/// The word that a name is but for that.
fn spelled_word(name: &[u8]) -> Option<&'static [u8]> {
    for word in &WORDS {
        if name.eq_ignore_ascii_case(*word) {
            return Some(*word);
        }
    }
    None
}

/// The nearest word of the language.
pub fn nearest_word(alloc: Global, name: &[u8]) -> Result<Option<&'static [u8]>, AllocError> {
    match spelled_word(name) {
        Some(word) => Ok(Some(word)),
        None => changed_word(alloc, name),
    }
}

/// The word that a name is nearest to by letters that differ.
fn changed_word(alloc: Global, name: &[u8]) -> Result<Option<&'static [u8]>, AllocError> {
    let mut least = usize::MAX;
    let mut found = None;
    if name.len() < LEAST_NEAR {
        return Ok(None);
    }
    for word in &WORDS {
        if let Some(count) = distance(alloc, name, *word)? {
            let most = (name.len() / 3).min(word.len() / 3).max(1);
            if count < least && count <= most {
                least = count;
                found = Some(*word);
            }
        }
    }
    Ok(found)
}

/// The nearest name among those of the marks that may stand there.
pub fn nearest<'t>(
    alloc: Global,
    text: &'t [u8],
    marks: &[Mark<'_>],
    wish: InScope,
    name: &[u8],
) -> Result<Option<Named<'t>>, AllocError> {
    let mut least = usize::MAX;
    let mut found = None;
    for mark in marks {
        let sign = sign_of(text, mark);
        if may_stand(sign, wish) {
            if let Some(count) = distance(alloc, name, sign.name.name)? {
                if count < least {
                    least = count;
                    found = Some(sign.name);
                }
            }
        }
    }
    Ok(found)
}
