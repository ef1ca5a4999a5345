// What is read of a client and written to it.
use crate::stop::AdapterEnd;
use dap_messages::outbox::Outbox;
use message_frames::{Frames, framed};
use serde_json::{Value, json};
use std::io::Write;

// Reads a message as JSON.
fn value_of(rt: &HostRuntime, bytes: &[u8]) -> Result<Option<Value>, AdapterEnd> {
    match Value::from_slice(rt.alloc(), bytes) {
        Ok(value) => Ok(Some(value)),
        Err(error) if error.is_memory() => Err(AdapterEnd::Memory),
        Err(_) => Ok(None),
    }
}

fn write(rt: &HostRuntime, value: &Value) -> Result<(), AdapterEnd> {
    let text = value.to_string(rt.alloc())?;
    let message = framed(rt.alloc(), text.as_bytes())?;
    let mut out = rt.stdout();
    if out.write_all(message.as_slice()).is_err() || out.flush().is_err() {
        return Err(AdapterEnd::Device);
    }
    Ok(())
}

// Sends what is to be sent.
pub fn send(rt: &HostRuntime, out: &mut Outbox) -> Result<(), AdapterEnd> {
    let messages = out.take();
    for message in messages.as_slice() {
        write(rt, message)?;
    }
    Ok(())
}

// Says that a body is no JSON.
fn refuse_body(rt: &HostRuntime, out: &mut Outbox) -> Result<(), AdapterEnd> {
    let none = json!(in rt.alloc(); {})?;
    out.refuse(&none, "no JSON")?;
    send(rt, out)
}

// The next request.
pub fn next(rt: &HostRuntime, frames: &mut Frames, out: &mut Outbox) -> Result<Value, AdapterEnd> {
    for _turn in 0..u64::MAX {
        let bytes = frames.next(&mut rt.stdin())?;
        match value_of(rt, bytes.as_slice())? {
            Some(request) => return Ok(request),
            None => refuse_body(rt, out)?,
        }
    }
    Err(AdapterEnd::Ended)
}
