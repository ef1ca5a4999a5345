// The files of a command line: the choices and the record.
use program_files::fault::{NoFile, not_opened};
use program_files::held::{FileRole, Held};
use program_files::identity::{Identity, identity_at};
use program_files::input::{ChoiceInput, Input, choices_in};
use spinplay::Arguments;
use std::fs;
use std::fs::File;

// The choices that are asked for: of a file, or else of standard input. Which file that is, is of no matter without a record.
pub fn choices_of(rt: &HostRuntime, asked: &Arguments) -> Result<ChoiceInput, NoFile> {
    if let Some(name) = &asked.choices {
        return choices_in(rt, name.as_str());
    }
    let file = match &asked.rec {
        Some(_) => identity_at(rt, "/dev/stdin")?,
        None => None,
    };
    Ok(ChoiceInput {
        input: Input::Standard(rt.stdin()),
        file,
    })
}

// The files beside the record, where the model and the choices are these.
pub fn held_of(
    rt: &HostRuntime,
    asked: &Arguments,
    model: Option<Identity>,
    choices: Option<Identity>,
) -> Result<Held, NoFile> {
    let mut held = Held::new(rt.alloc());
    held.add(model, FileRole::Model)?;
    if let Some(name) = &asked.source {
        held.add(identity_at(rt, name.as_str())?, FileRole::Model)?;
    }
    held.add(choices, FileRole::Choices)?;
    held.add(identity_at(rt, "/dev/stdout")?, FileRole::Output)?;
    Ok(held)
}

// The file of the record, emptied, unless it is one of the others.
pub fn created(rt: &HostRuntime, name: &str, held: &Held) -> Result<File, NoFile> {
    if let Some(own) = identity_at(rt, name)? {
        if let Some(role) = held.role_of(own) {
            return Err(NoFile::WouldEmpty(String::from_str(rt.alloc(), name)?, role));
        }
    }
    match fs::create(rt, name) {
        Ok(file) => Ok(file),
        Err(error) => Err(not_opened(rt.alloc(), name, error)),
    }
}
