//! Responses and events.

ghost use Rattle.std.specs.Prelude.{◌≡◌, Some, IfOk};
ghost use Rattle.serde_json.specs.Find.{get};
ghost use Rattle.serde_json.specs.View.{view};
ghost use Rattle.dap_messages.specs.Messages.{IsReplyTo};

use crate::fields::command_of;
use serde_json::{Value, json};
use std::alloc::{AllocError, Global};

/// The response to a request that is answered.
pub fn reply(alloc: Global, seq: u64, request: &Value, body: Value) -> Result<Value, AllocError>
    ensures { IfOk result (IsReplyTo (view request.now)) }
{
    let command = command_of(request);
    match request.get("seq") {
        Some(number) =>
            json!(in alloc; {"seq": seq, "type": "response", "request_seq": number, "command": command, "success": true, "body": body}),
        None =>
            json!(in alloc; {"seq": seq, "type": "response", "request_seq": 0, "command": command, "success": true, "body": body}),
    }
}

/// The response to a request that is not, with the reason.
pub fn refusal(alloc: Global, seq: u64, request: &Value, why: &str) -> Result<Value, AllocError>
    ensures { IfOk result (IsReplyTo (view request.now)) }
{
    let command = command_of(request);
    match request.get("seq") {
        Some(number) =>
            json!(in alloc; {"seq": seq, "type": "response", "request_seq": number, "command": command, "success": false, "message": why}),
        None =>
            json!(in alloc; {"seq": seq, "type": "response", "request_seq": 0, "command": command, "success": false, "message": why}),
    }
}

/// An event.
pub fn event(alloc: Global, seq: u64, name: &str, body: Value) -> Result<Value, AllocError> {
    json!(in alloc; {"seq": seq, "type": "event", "event": name, "body": body})
}
