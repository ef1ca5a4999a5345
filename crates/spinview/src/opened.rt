// The files of a command line, opened before anything is written.
use crate::stop::NoView;
use crate::telling::{PROGRAM, shown_name};
use crate::writing::{PageFile, Record};
use program_files::fault::{NoFile, not_opened, not_read};
use program_files::held::{FileRole, Held};
use program_files::identity::{Identity, identity_at};
use program_files::input::{ChoiceInput, Input, choices_in};
use program_files::models;
use program_files::models::{Model, model_in};
use program_files::texts::{FileText, MOST_SOURCE, text_of};
use std::alloc::Global;
use std::{fs, io};
use streams::followed::FollowedReader;
use view_words::{RunForm, Wishes};

// At most so many bytes of a trail are read.
const MOST_TRAIL: u64 = 268_435_456;

// Whether lines are read and answered.
pub fn has_session(asked: &Wishes) -> bool {
    asked.form == RunForm::Session && asked.page.is_none() && asked.seed.is_none()
}

// The texts of a run.
#[derive(Drop)]
pub struct RunTexts {
    pub model: Model,
    // the text of another file, of which the model was prepared
    pub source: Option<Vec<u8>>,
    pub trail: Option<Vec<u8>>,
}

impl RunTexts {
    // The text whose lines are shown.
    pub fn shown(&self) -> &[u8] {
        match (&self.model.own, &self.source) {
            (Some(own), _) => own.text.as_slice(),
            (None, Some(source)) => source.as_slice(),
            (None, None) => self.model.bytes.as_slice(),
        }
    }
}

// What a run reads beside its texts, and what it writes.
#[derive(Drop)]
pub struct Files {
    // the choices that are taken without a question
    pub choices: Option<FollowedReader<Input>>,
    pub rec: Option<Record>,
    pub page: Option<PageFile>,
    pub held: Held,
}

// All that a run is over.
#[derive(Drop)]
pub struct Opened {
    pub texts: RunTexts,
    pub files: Files,
}

// A text that is shown beside the model. One that is no regular file may not be there twice, and is left out.
fn source_in(
    rt: &HostRuntime,
    name: &Option<String>,
    role: FileRole,
    held: &mut Held,
) -> Result<Option<Vec<u8>>, NoFile> {
    let Some(name) = name else {
        return Ok(None);
    };
    match fs::metadata(rt, name.as_str()) {
        Ok(about) if !about.is_file() => Ok(None),
        Ok(_) => {
            let text = text_of(rt, name.as_str(), MOST_SOURCE)?;
            held.add(text.file, role)?;
            Ok(Some(text.bytes))
        }
        Err(error) => Err(not_opened(rt.alloc(), name.as_str(), error)),
    }
}

// A trail that is not read whole is none.
fn whole(alloc: Global, name: &str, text: FileText) -> Result<FileText, NoFile> {
    if text.bytes.len() as u64 > MOST_TRAIL {
        let error = io::Error::new(
            io::ErrorKind::InvalidData,
            "it has more than 268435456 bytes",
        );
        return Err(not_read(alloc, name, error));
    }
    Ok(text)
}

// The trail that is followed first.
fn trail_in(
    rt: &HostRuntime,
    name: &Option<String>,
    held: &mut Held,
) -> Result<Option<Vec<u8>>, NoFile> {
    let Some(name) = name else {
        return Ok(None);
    };
    let read = text_of(rt, name.as_str(), MOST_TRAIL + 1)?;
    let text = whole(rt.alloc(), name.as_str(), read)?;
    held.add(text.file, FileRole::Trail)?;
    Ok(Some(text.bytes))
}

fn followed(rt: &HostRuntime, choices: ChoiceInput) -> FollowedReader<Input> {
    FollowedReader::new(rt.alloc(), choices.input)
}

// The choices that are taken without a question, where there are any: of a file, or of standard input where there is no session.
fn choices_asked(
    rt: &HostRuntime,
    asked: &Wishes,
    held: &mut Held,
) -> Result<Option<FollowedReader<Input>>, NoFile> {
    if let Some(name) = &asked.choices {
        let choices = choices_in(rt, name.as_str())?;
        held.add(choices.file, FileRole::Choices)?;
        return Ok(Some(followed(rt, choices)));
    }
    let is_asked = has_session(asked) || asked.asks || asked.serves;
    if is_asked || asked.seed.is_some() || asked.trail.is_some() {
        return Ok(None);
    }
    let standard = ChoiceInput {
        input: Input::Standard(rt.stdin()),
        file: None,
    };
    Ok(Some(followed(rt, standard)))
}

// The model that is asked for, prepared if that is asked for too.
fn model_asked(rt: &HostRuntime, asked: &Wishes) -> Result<Model, NoFile> {
    let wanted = models::ModelOptions {
        file: asked.model.as_str(),
        name: shown_name(asked),
        prepare: asked.prepare,
        no_cpp: asked.no_cpp,
        defines: asked.defines.as_slice(),
        folders: asked.folders.as_slice(),
    };
    model_in(rt, PROGRAM, wanted)
}

fn texts_of(rt: &HostRuntime, asked: &Wishes, held: &mut Held) -> Result<RunTexts, NoFile> {
    let model = model_asked(rt, asked)?;
    held.add(model.file, FileRole::Model)?;
    let source = source_in(rt, &asked.source, FileRole::Model, held)?;
    let _ = source_in(rt, &asked.lines, FileRole::Lines, held)?;
    Ok(RunTexts {
        model,
        source,
        trail: trail_in(rt, &asked.trail, held)?,
    })
}

// Notes the files that the program was begun with.
fn add_standard(rt: &HostRuntime, held: &mut Held) -> Result<(), NoFile> {
    let standard: [(&str, FileRole); 2] = [
        ("/dev/stdin", FileRole::Choices),
        ("/dev/stdout", FileRole::Output),
    ];
    for (name, role) in standard {
        let file: Option<Identity> = identity_at(rt, name)?;
        held.add(file, role)?;
    }
    Ok(())
}

// The record that is asked for.
fn record_asked(
    rt: &HostRuntime,
    asked: &Wishes,
    held: &mut Held,
) -> Result<Option<Record>, NoFile> {
    match &asked.rec {
        Some(name) => Ok(Some(Record::open(rt, name.as_str(), held)?)),
        None => Ok(None),
    }
}

// The page that is asked for.
fn page_asked(
    rt: &HostRuntime,
    asked: &Wishes,
    held: &mut Held,
) -> Result<Option<PageFile>, NoFile> {
    match &asked.page {
        Some(name) => Ok(Some(PageFile::open(rt, name.as_str(), held)?)),
        None => Ok(None),
    }
}

// What is read beside the texts, and what is written. No file is another one of the run.
fn files_asked(rt: &HostRuntime, asked: &Wishes, held: Held) -> Result<Files, NoFile> {
    let mut files = Files {
        choices: None,
        rec: None,
        page: None,
        held,
    };
    files.choices = choices_asked(rt, asked, &mut files.held)?;
    add_standard(rt, &mut files.held)?;
    files.rec = record_asked(rt, asked, &mut files.held)?;
    files.page = page_asked(rt, asked, &mut files.held)?;
    Ok(files)
}

// Opens all: what is written keeps what it holds.
pub fn open_all(rt: &HostRuntime, asked: &Wishes) -> Result<Opened, NoView> {
    let mut held = Held::new(rt.alloc());
    let texts = texts_of(rt, asked, &mut held)?;
    let files = files_asked(rt, asked, held)?;
    Ok(Opened { texts, files })
}
