//! Models as their files have them, or as they are prepared.

use crate::fault::NoFile;
use crate::identity::Identity;
use crate::texts::{FileText, model_of, text_of};
use called_macros::origin::Origin;
use prepare::MOST_BYTES;
use prepared::given::How;
use prepared::made::{Prepared, prepared_of};
use prepared::report::Called;
use prepared::unprepared::Unprepared;

// At most so many bytes are read of a text that is prepared: one more than it may have.
const MOST_READ: u64 = MOST_BYTES as u64 + 1;

/// The text that a model was prepared of by the program itself, where lines of included files stand in what was prepared, and the tokens that it came
/// of, if some came of the body of a macro.
#[derive(Drop)]
pub struct Own {
    pub text: Vec<u8>,
    pub lines: Vec<u8>,
    pub origin: Option<Origin>,
}

/// A model, and which regular file it is of, if it is of one.
#[derive(Drop)]
pub struct Model {
    pub bytes: Vec<u8>,
    pub file: Option<Identity>,
    pub own: Option<Own>,
}

/// What the words of a command line ask of a model's file.
#[derive(Clone, Copy)]
pub struct ModelOptions<'a> {
    pub file: &'a str,
    /// What the model is called.
    pub name: &'a str,
    /// Whether it is prepared.
    pub prepare: bool,
    /// Whether it is prepared as it is, without its macros and conditions.
    pub no_cpp: bool,
    pub defines: &'a [String],
    pub folders: &'a [String],
}

// What is prepared of a text, of which is said what is to be said.
fn prepared_and_told(
    rt: &HostRuntime,
    called: Called<'_>,
    how: &How,
    text: &[u8],
) -> Result<Prepared, Unprepared> {
    let prepared = prepared_of(rt, how, text, called)?;
    let said = prepared.said.as_str();
    let _ = eprint!(rt; "{said}");
    Ok(prepared)
}

// A text as it is prepared.
fn prepared_text(
    rt: &HostRuntime,
    called: Called<'_>,
    how: &How,
    text: FileText,
) -> Result<Model, Unprepared> {
    let prepared = prepared_and_told(rt, called, how, text.bytes.as_slice())?;
    let own = Own {
        text: text.bytes,
        lines: prepared.lines,
        origin: prepared.origin,
    };
    Ok(Model {
        bytes: prepared.text,
        file: text.file,
        own: Some(own),
    })
}

// The model of a file that is prepared.
fn prepared_model(
    rt: &HostRuntime,
    program: &str,
    asked: ModelOptions<'_>,
) -> Result<Model, NoFile> {
    let how = How::with(rt.alloc(), asked.no_cpp, asked.defines, asked.folders)?;
    let text = text_of(rt, asked.file, MOST_READ)?;
    let called = Called {
        program,
        file: asked.file,
        name: asked.name,
    };
    Ok(prepared_text(rt, called, &how, text)?)
}

/// The model of a file, prepared if that is asked for.
pub fn model_in(rt: &HostRuntime, program: &str, asked: ModelOptions<'_>) -> Result<Model, NoFile> {
    if asked.prepare {
        return prepared_model(rt, program, asked);
    }
    let FileText { bytes, file } = model_of(rt, asked.file)?;
    Ok(Model {
        bytes,
        file,
        own: None,
    })
}
