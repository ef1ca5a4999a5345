// A client, from its first request to its last.
ghost use Rattle.view_walk.specs.Walks.{SameModel};

use crate::first::{FirstTaken, take_first};
use crate::launch::{Launch, choosing_of, launch_of};
use crate::link::{next, send};
use crate::stop::AdapterEnd;
use dap_answers::answer::answer;
use dap_answers::debugging::ClientSession;
use dap_messages::fields::command_of;
use dap_messages::outbox::Outbox;
use dap_messages::processes::ModelSource;
use dap_messages::words::text_of;
use diagnostics::Refusal;
use message_frames::Frames;
use pml_check::Checked;
use pml_play::{Rejection, checked_of, expanded_of};
use pml_token::token::Token;
use program_files::fault::NoFile;
use program_files::refusal::{ExplainedText, explained, explained_beside};
use serde_json::{Value, json};
use trail_text::marks::Marks;
use view_walk::walk::Walk;

// What is read of a client, and what is still to be sent to it.
#[derive(Drop)]
struct Client {
    frames: Frames,
    out: Outbox,
}

// How a session with a model ended.
#[derive(Clone, Copy, PartialEq, Eq)]
enum Ended {
    // The client has ended it.
    Disconnected,
    // There is no model, which was said.
    Refused,
}

fn greet(rt: &HostRuntime, out: &mut Outbox, request: &Value) -> Result<(), AdapterEnd> {
    let body = json!(in rt.alloc(); {
        "supportsConfigurationDoneRequest": true,
        "supportsStepBack": true,
        "supportsStepInTargetsRequest": true,
        "supportsConditionalBreakpoints": true,
        "supportsHitConditionalBreakpoints": true,
        "supportsDataBreakpoints": true,
        "supportsEvaluateForHovers": true,
        "supportsExceptionInfoRequest": true,
        "supportsTerminateRequest": true,
        "supportsRestartRequest": true
    })?;
    out.reply(request, body)?;
    Ok(())
}

// Says that there is no model, and why.
fn refuse(
    rt: &HostRuntime,
    out: &mut Outbox,
    request: &Value,
    why: &str,
) -> Result<Ended, AdapterEnd> {
    out.refuse(request, why)?;
    let body = json!(in rt.alloc(); {})?;
    out.event("terminated", body)?;
    send(rt, out)?;
    Ok(Ended::Refused)
}

// Why the model is refused, and where.
fn words_of(rt: &HostRuntime, launch: &Launch, refusal: Refusal) -> Result<String, NoFile> {
    let text = launch.model.bytes.as_slice();
    if let Some(own) = &launch.model.own {
        return explained_beside(rt, launch.path.as_str(), text, own, refusal);
    }
    let shown = ExplainedText {
        name: launch.path.as_str(),
        text,
        source: &None,
        lines: &None,
    };
    explained(rt, shown, refusal)
}

fn rejected(
    rt: &HostRuntime,
    out: &mut Outbox,
    launch: &Launch,
    request: &Value,
    rejection: Rejection,
) -> Result<Ended, AdapterEnd> {
    match rejection {
        Rejection::Memory => refuse(rt, out, request, "out of memory"),
        Rejection::Refused(refusal, _) => match words_of(rt, launch, refusal) {
            Ok(words) => refuse(rt, out, request, words.as_str()),
            Err(_) => refuse(rt, out, request, "the model is refused"),
        },
    }
}

// Why a file cannot be used.
fn file_words(fault: &NoFile) -> &'static str {
    match fault {
        NoFile::CannotOpen(_, _) => "a file cannot be opened",
        NoFile::CannotRead(_, _) => "a file cannot be read",
        NoFile::Memory => "out of memory",
        NoFile::Unprepared(_) => "the model cannot be prepared: standard error says why",
        _ => "a file cannot be used",
    }
}

// Answers a request. Where memory is refused for that, it is told, and the walk stands where it stood or on the way there.
fn answer_one(
    walk: &mut Walk<'_, '_>,
    session: &mut ClientSession,
    source: ModelSource<'_>,
    request: &Value,
) -> Result<(), AdapterEnd>
    ensures { SameModel walk.old walk.new }
{
    if answer(walk, session, source, request).is_err() {
        session.let_go(walk)?;
        session.out.refuse(request, "out of memory")?;
    }
    Ok(())
}

// Answers requests until the client ends the session.
fn answer_all(
    walk: &mut Walk<'_, '_>,
    rt: &HostRuntime,
    frames: &mut Frames,
    session: &mut ClientSession,
    source: ModelSource<'_>,
) -> Result<Ended, AdapterEnd>
    ensures { SameModel walk.old walk.new }
{
    for _turn in 0..u64::MAX {
        let request = next(rt, frames, &mut session.out)?;
        if command_of(&request) == "disconnect" {
            let body = json!(in rt.alloc(); {})?;
            session.out.reply(&request, body)?;
            send(rt, &mut session.out)?;
            return Ok(Ended::Disconnected);
        }
        answer_one(walk, session, source, &request)?;
        send(rt, &mut session.out)?;
    }
    Ok(Ended::Disconnected)
}

// Begins a session: only now the client is asked for its breaks.
fn begin(
    rt: &HostRuntime,
    session: &mut ClientSession,
    request: &Value,
    begun: &FirstTaken,
    printed: &[u8],
) -> Result<(), AdapterEnd> {
    session.faulting = begun.faulting;
    let body = json!(in rt.alloc(); {})?;
    session.out.reply(request, body)?;
    let body = json!(in rt.alloc(); {})?;
    session.out.event("initialized", body)?;
    let words = text_of(rt.alloc(), printed)?;
    session.out.output("stdout", words.as_str())?;
    if !begun.is_whole {
        session.out.output(
            "console",
            "the trail does not fit from here on: spinview --trail says where\n",
        )?;
    }
    send(rt, &mut session.out)
}

fn of_walk(
    walk: &mut Walk<'_, '_>,
    rt: &HostRuntime,
    client: &mut Client,
    launch: &Launch,
    request: &Value,
    marks: &Marks,
) -> Result<Ended, AdapterEnd>
    ensures { SameModel walk.old walk.new }
{
    let mut printed = Vec::new(rt.alloc());
    let begun = take_first(walk, rt, launch, marks, &mut printed)?;
    let out = std::mem::replace(&mut client.out, Outbox::new(rt.alloc()));
    let mut session = ClientSession::new(out, choosing_of(request), launch.limit);
    begin(rt, &mut session, request, &begun, printed.as_slice())?;
    let source = ModelSource {
        path: launch.path.as_str(),
        text: launch.shown(),
    };
    answer_all(walk, rt, &mut client.frames, &mut session, source)
}

fn of_model(
    checked: &Checked<'_>,
    rt: &HostRuntime,
    client: &mut Client,
    launch: &Launch,
    request: &Value,
    marks: &Marks,
) -> Result<Ended, AdapterEnd> {
    match Walk::new(rt.alloc(), checked, launch.is_lossy) {
        Ok(mut walk) => of_walk(&mut walk, rt, client, launch, request, marks),
        Err(_) => Err(AdapterEnd::Memory),
    }
}

fn of_tokens<'a>(
    tokens: &'a [Token<'a>],
    rt: &HostRuntime,
    client: &mut Client,
    launch: &Launch,
    request: &Value,
) -> Result<Ended, AdapterEnd> {
    let mut marks = Marks::new(rt.alloc());
    if launch.trail.is_some() {
        marks.mark_all(tokens)?;
    }
    match checked_of(rt.alloc(), tokens) {
        Ok(checked) => of_model(&checked, rt, client, launch, request, &marks),
        Err(rejection) => rejected(rt, &mut client.out, launch, request, rejection),
    }
}

fn of_launch(
    rt: &HostRuntime,
    client: &mut Client,
    launch: &Launch,
    request: &Value,
) -> Result<Ended, AdapterEnd> {
    match expanded_of(rt.alloc(), launch.model.bytes.as_slice()) {
        Ok(tokens) => of_tokens(tokens.as_slice(), rt, client, launch, request),
        Err(rejection) => rejected(rt, &mut client.out, launch, request, rejection),
    }
}

fn launched(rt: &HostRuntime, client: &mut Client, request: &Value) -> Result<Ended, AdapterEnd> {
    match launch_of(rt, request) {
        Ok(launch) => of_launch(rt, client, &launch, request),
        Err(fault) => refuse(rt, &mut client.out, request, file_words(&fault)),
    }
}

// Answers a request before there is a model. Whether the client has ended it.
fn answer_first(
    rt: &HostRuntime,
    client: &mut Client,
    request: &Value,
) -> Result<bool, AdapterEnd> {
    let command = command_of(request);
    if command == "launch" {
        return Ok(launched(rt, client, request)? == Ended::Disconnected);
    }
    if command == "initialize" {
        greet(rt, &mut client.out, request)?;
    } else if command == "disconnect" || command == "terminate" {
        let body = json!(in rt.alloc(); {})?;
        client.out.reply(request, body)?;
    } else {
        client.out.refuse(request, "no model is launched")?;
    }
    send(rt, &mut client.out)?;
    Ok(command == "disconnect")
}

// Answers requests until the client ends it.
pub fn serve(rt: &HostRuntime) -> Result<(), AdapterEnd> {
    let mut client = Client {
        frames: Frames::new(rt.alloc()),
        out: Outbox::new(rt.alloc()),
    };
    for _turn in 0..u64::MAX {
        let request = next(rt, &mut client.frames, &mut client.out)?;
        if answer_first(rt, &mut client, &request)? {
            return Ok(());
        }
    }
    Ok(())
}
