//! The requests that are answered.

/// A request that is answered.
#[derive(Clone, Copy, Debug, PartialEq, Eq)]
pub enum DebugRequest {
    Threads,
    StackTrace,
    Scopes,
    Variables,
    StepInTargets,
    ExceptionInfo,
    Evaluate,
    SetBreakpoints,
    SetDataBreakpoints,
    DataBreakpointInfo,
    SetExceptionBreakpoints,
    Pause,
    ConfigurationDone,
    Next,
    StepIn,
    StepOut,
    Continue,
    StepBack,
    ReverseContinue,
    Restart,
    Terminate,
}

const SHOWN: [(DebugRequest, &str); 7] = [
    (DebugRequest::Threads, "threads"),
    (DebugRequest::StackTrace, "stackTrace"),
    (DebugRequest::Scopes, "scopes"),
    (DebugRequest::Variables, "variables"),
    (DebugRequest::StepInTargets, "stepInTargets"),
    (DebugRequest::ExceptionInfo, "exceptionInfo"),
    (DebugRequest::DataBreakpointInfo, "dataBreakpointInfo"),
];

const SET: [(DebugRequest, &str); 6] = [
    (DebugRequest::SetBreakpoints, "setBreakpoints"),
    (DebugRequest::SetDataBreakpoints, "setDataBreakpoints"),
    (
        DebugRequest::SetExceptionBreakpoints,
        "setExceptionBreakpoints",
    ),
    (DebugRequest::Pause, "pause"),
    (DebugRequest::Terminate, "terminate"),
    (DebugRequest::Evaluate, "evaluate"),
];

const MOVED: [(DebugRequest, &str); 8] = [
    (DebugRequest::ConfigurationDone, "configurationDone"),
    (DebugRequest::Next, "next"),
    (DebugRequest::StepIn, "stepIn"),
    (DebugRequest::StepOut, "stepOut"),
    (DebugRequest::Continue, "continue"),
    (DebugRequest::StepBack, "stepBack"),
    (DebugRequest::ReverseContinue, "reverseContinue"),
    (DebugRequest::Restart, "restart"),
];

fn in_table(table: &[(DebugRequest, &'static str)], name: &str) -> Option<DebugRequest> {
    for (command, own) in table {
        if *own == name {
            return Some(*command);
        }
    }
    None
}

/// The request with this name.
pub fn command_named(name: &str) -> Option<DebugRequest> {
    match in_table(&SHOWN, name) {
        Some(command) => Some(command),
        None => match in_table(&SET, name) {
            Some(command) => Some(command),
            None => in_table(&MOVED, name),
        },
    }
}
