// What a client asks to be launched: a model, and what is taken first.
use dap_messages::fields::{is_true_at, items_at, number_at, text_at};
use itoa::Buffer;
use program_files::fault::NoFile;
use program_files::models;
use program_files::models::{Model, model_in};
use program_files::texts::text_of;
use serde_json::Value;
use std::alloc::{AllocError, Global};
use walk_answers::choosing::Choosing;

// What the adapter is called.
pub const PROGRAM: &str = "spindap";

// At most so many bytes of a trail or of choices are read.
const MOST_CHOICES: u64 = 268_435_456;

// So many steps are taken at most, where no other count is asked for.
const USUAL_LIMIT: usize = 1_000_000;

// A model that is asked for, and what is taken first.
#[derive(Drop)]
pub struct Launch {
    pub path: String,
    pub model: Model,
    // the numbers of choices, a line each
    pub choices: Option<Vec<u8>>,
    pub trail: Option<Vec<u8>>,
    pub is_lossy: bool,
    pub limit: usize,
}

impl Launch {
    // The text whose lines are shown.
    pub fn shown(&self) -> &[u8] {
        match &self.model.own {
            Some(own) => own.text.as_slice(),
            None => self.model.bytes.as_slice(),
        }
    }
}

// How runs go on at a choice.
pub fn choosing_of(request: &Value) -> Choosing {
    let words = text_at(request, "/arguments/onChoice");
    if words == "first" {
        return Choosing::First;
    }
    match words.strip_prefix("random:") {
        Some(seed) => match seed.parse::<u64>() {
            Ok(seed) => Choosing::by_chance(seed),
            Err(_) => Choosing::Ask,
        },
        None => Choosing::Ask,
    }
}

// The numbers of a list, a line each.
fn lines_of(alloc: Global, items: &[Value]) -> Result<Vec<u8>, AllocError> {
    let mut lines = Vec::new(alloc);
    for item in items {
        let mut digits = Buffer::new();
        let number = item.as_u64().unwrap_or(0);
        lines.extend_from_slice(digits.format(number).as_bytes())?;
        lines.extend_from_slice(b"\n")?;
    }
    Ok(lines)
}

// The bytes of the file that a request names, if it names one.
fn bytes_at(rt: &HostRuntime, request: &Value, path: &str) -> Result<Option<Vec<u8>>, NoFile> {
    let name = text_at(request, path);
    if name.is_empty() {
        return Ok(None);
    }
    Ok(Some(text_of(rt, name, MOST_CHOICES)?.bytes))
}

// The choices that are taken first: a list of numbers, or a file.
fn choices_at(rt: &HostRuntime, request: &Value) -> Result<Option<Vec<u8>>, NoFile> {
    let items = items_at(request, "/arguments/choices");
    if !items.is_empty() {
        return Ok(Some(lines_of(rt.alloc(), items)?));
    }
    bytes_at(rt, request, "/arguments/choices")
}

// What a request asks to be launched.
pub fn launch_of(rt: &HostRuntime, request: &Value) -> Result<Launch, NoFile> {
    let path = text_at(request, "/arguments/program");
    let asked = models::ModelOptions {
        file: path,
        name: path,
        prepare: is_true_at(request, "/arguments/prepare"),
        no_cpp: false,
        defines: &[],
        folders: &[],
    };
    Ok(Launch {
        path: String::from_str(rt.alloc(), path)?,
        model: model_in(rt, PROGRAM, asked)?,
        choices: choices_at(rt, request)?,
        trail: bytes_at(rt, request, "/arguments/trail")?,
        is_lossy: is_true_at(request, "/arguments/lossy"),
        limit: number_at(request, "/arguments/limit").unwrap_or(USUAL_LIMIT),
    })
}
