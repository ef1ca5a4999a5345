//! The text of a model that is to be prepared: as it is, or what the preprocessor leaves of it.

ghost use Rattle.std.specs.Prelude.{◌≡◌, true, IfOk, IfSome};
ghost use Rattle.std.specs.List.{list_any};
ghost use Rattle.called_macros.specs.Origins.{is_body};
ghost use Rattle.prepared.specs.Made.{IsLeftOf};

use crate::disk::Disk;
use crate::given::How;
use crate::refused::{ReadTexts, tell_notes, unprepared_of};
use crate::report::Called;
use crate::unprepared::Unprepared;
use called_macros::origin::{Origin, has_body};
use marked_text::written::{Sources, written};
use pml_directives::plain::is_plain;
use pml_directives::state::State;
use pml_directives::whole::preprocess;
use pml_macros::work::Work;
use std::alloc::AllocError;

// What the lines that stand for options are called.
const GIVEN: &[u8] = b"(options)";

// A text of its own.
fn copied(rt: &HostRuntime, text: &[u8]) -> Result<Vec<u8>, AllocError>
    ensures { IfOk result (λ v. v.items ≡ text.now) }
{
    let mut bytes = Vec::with_capacity(rt.alloc(), text.len())?;
    bytes.extend_from_slice(text)?;
    Ok(bytes)
}

/// The text that is to be prepared, and the tokens that it came of, if some came of the body of a macro.
#[derive(Drop)]
pub struct Left {
    pub text: Vec<u8>,
    pub origin: Option<Origin>,
}

// The tokens that a text came of, if some came of the body of a macro.
fn origin_of(state: State) -> Option<Origin>
    ensures { IfSome result (λ o. list_any is_body o.atoms.items ≡ true) }
{
    let State {
        work: Work { book, .. },
        out: atoms,
        names,
        homes,
        ..
    } = state;
    if has_body(&atoms) {
        Some(Origin {
            atoms,
            book,
            names,
            homes,
        })
    } else {
        None
    }
}

// What the preprocessor leaves of a text of this name.
fn preprocessed(
    rt: &HostRuntime,
    how: &How,
    called: Called<'_>,
    text: &[u8],
) -> Result<Left, Unprepared> {
    let alloc = rt.alloc();
    let mut state = State::new(alloc, called.name.as_bytes(), GIVEN)?;
    let read = ReadTexts {
        text,
        given: &how.given,
    };
    let mut disk = Disk {
        rt,
        folders: &how.folders,
        own: called.file,
        called: called.name,
    };
    match preprocess(alloc, &mut disk, &mut state, &how.given, text) {
        Ok(()) => {}
        Err(refusal) => return Err(unprepared_of(rt, &state, read, refusal)),
    }
    tell_notes(rt, &state, read);
    let sources = Sources {
        names: &state.names,
        homes: &state.homes,
    };
    let text = written(alloc, &state.work.book, sources, &state.out)?;
    let origin = origin_of(state);
    Ok(Left { text, origin })
}

/// The text that is prepared of a text of this name. One in which nothing is for a preprocessor is as it was.
pub fn model_text(
    rt: &HostRuntime,
    how: &How,
    called: Called<'_>,
    text: &[u8],
) -> Result<Left, Unprepared>
    ensures { IfOk result (λ l. IsLeftOf how.now text.now l.text.items) }
{
    if how.is_plain || (how.given.is_empty() && is_plain(text)) {
        let text = copied(rt, text)?;
        return Ok(Left { text, origin: None });
    }
    preprocessed(rt, how, called, text)
}
