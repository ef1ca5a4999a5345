//! Reads a line.

ghost use Rattle.std.specs.Prelude.{◌≤◌, length, IfOk};
ghost use Rattle.walk_lines.specs.declared.requests.TheConstants.{MOST_LINE};

use serde_json::{Map, Value};
use std::alloc::{AllocError, Global};
use walk_answers::request::{By, Request};

/// A line has at most so many bytes.
pub const MOST_LINE: usize = 65_536;

/// Why a line is no request.
#[derive(Clone, Copy, Debug, PartialEq, Eq)]
pub enum UnreadRequest {
    Memory,
    /// It has too many bytes.
    Long,
    /// It is no text of JSON.
    NoJson,
    /// It is no object with the name of one request.
    NoRequest,
    /// What stands behind that name does not fit.
    NoFit,
}

impl UnreadRequest {
    /// What is said of it.
    pub fn words(self) -> &'static str {
        match self {
            UnreadRequest::Memory => "out of memory",
            UnreadRequest::Long => "a line has 65536 bytes at most",
            UnreadRequest::NoJson => "no JSON",
            UnreadRequest::NoRequest => {
                "no request: take, back, goto, on, until, why, state, moves, record"
            }
            UnreadRequest::NoFit => "a number, a condition or true is wanted there",
        }
    }
}

impl From<AllocError> for UnreadRequest {
    ghost use Rattle.std.specs.Prelude.{◌≡◌};
    ghost use Rattle.walk_lines.specs.declared.requests.UnreadRequest.TheVariants.{Memory};

    ghost from_gives = { λ _ f. f ≡ Memory };

    fn from(_error: AllocError) -> UnreadRequest {
        UnreadRequest::Memory
    }
}

fn number_of(value: &Value) -> Option<usize> {
    match value.as_u64() {
        Some(number) => match usize::try_from(number) {
            Ok(number) => Some(number),
            Err(_) => None,
        },
        None => None,
    }
}

fn is_true(value: &Value) -> bool {
    matches!(value.as_bool(), Some(true))
}

fn with_number(value: &Value) -> Result<usize, UnreadRequest> {
    match number_of(value) {
        Some(number) => Ok(number),
        None => Err(UnreadRequest::NoFit),
    }
}

// A request that `true` stands behind.
fn if_true(value: &Value, request: Request) -> Result<Request, UnreadRequest> {
    if is_true(value) {
        Ok(request)
    } else {
        Err(UnreadRequest::NoFit)
    }
}

// How a run goes on until a condition holds, and how many members say so.
fn by_of(message: &Value) -> Result<(By, usize), UnreadRequest> {
    match (message.get("process"), message.get("random")) {
        (None, None) => Ok((By::Forced, 1)),
        (Some(process), None) => Ok((By::Process(with_number(process)?), 2)),
        (None, Some(seed)) => Ok((By::Chance(with_number(seed)? as u64), 2)),
        (Some(_), Some(_)) => Err(UnreadRequest::NoFit),
    }
}

// The request that its only member is.
fn simple_of(name: &str, value: &Value) -> Result<Request, UnreadRequest> {
    match name {
        "take" => Ok(Request::Take(with_number(value)?)),
        "back" => Ok(Request::Back(with_number(value)?)),
        "goto" => Ok(Request::Goto(with_number(value)?)),
        "on" => Ok(Request::On(with_number(value)?)),
        "why" if is_true(value) => Ok(Request::Why(None)),
        "why" => Ok(Request::Why(Some(with_number(value)?))),
        "state" => if_true(value, Request::State),
        "moves" => if_true(value, Request::Moves),
        "record" => if_true(value, Request::Record),
        _ => Err(UnreadRequest::NoRequest),
    }
}

// The request whose condition this is.
fn until_of(alloc: Global, text: &str, by: By) -> Result<Request, UnreadRequest> {
    let text = String::from_str(alloc, text)?;
    Ok(Request::Until(text, by))
}

// The one member of an object.
fn only_of(members: &Map<String, Value>) -> Option<(&str, &Value)> {
    for (name, value) in members.iter() {
        return Some((name.as_str(), value));
    }
    None
}

// The request that a value is.
fn of_value(alloc: Global, message: &Value) -> Result<Request, UnreadRequest> {
    let Some(members) = message.as_object() else {
        return Err(UnreadRequest::NoRequest);
    };
    if let Some(condition) = message.get("until") {
        let (by, count) = by_of(message)?;
        return match condition.as_str() {
            Some(text) if members.len() == count => until_of(alloc, text, by),
            _ => Err(UnreadRequest::NoFit),
        };
    }
    match only_of(members) {
        Some((name, value)) if members.len() == 1 => simple_of(name, value),
        _ => Err(UnreadRequest::NoRequest),
    }
}

/// The request that a line is.
pub fn request_of(alloc: Global, line: &[u8]) -> Result<Request, UnreadRequest>
    ensures { IfOk result (λ r. length line.now ≤ MOST_LINE) }
{
    if line.len() > MOST_LINE {
        return Err(UnreadRequest::Long);
    }
    match Value::from_slice(alloc, line) {
        Ok(message) => of_value(alloc, &message),
        Err(error) if error.is_memory() => Err(UnreadRequest::Memory),
        Err(_) => Err(UnreadRequest::NoJson),
    }
}
