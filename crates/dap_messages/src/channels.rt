//! Channels and their messages.

ghost use Rattle.view_text.specs.Written.{Stays};

use crate::cells::{ItemRange, variable};
use crate::references::{Listed, reference_of};
use crate::words::words_of;
use pml_channel::channel::Channel;
use run_state::live::Live;
use serde_json::{Value, json};
use std::alloc::{AllocError, Global};
use view_cells::channels::{add_channel, add_message, channel_at};
use view_text::writer::Writer;

// So many messages stand beside the name of a channel.
const MOST_BESIDE: usize = 8;

// Writes the first messages.
fn add_messages(live: &Live<'_, '_>, channel: &Channel, out: &mut Writer)
    ensures { Stays out.old out.new }
{
    let count = channel.len().min(MOST_BESIDE);
    for at in 0..count {
        out.add(b" ");
        add_message(live, channel.types(), channel.message(at), out);
    }
    if channel.len() > count {
        out.add(b" ..");
    }
}

/// Writes how full a channel is, and its first messages: `2 of 3 (ping, 1) (pong, 2)`.
pub fn add_contents(live: &Live<'_, '_>, number: usize, out: &mut Writer)
    ensures { Stays out.old out.new }
{
    let Some(channel) = channel_at(live, number) else {
        return;
    };
    if channel.capacity() == 0 {
        out.add(b"rendezvous");
        return;
    }
    out.number(channel.len());
    out.add(b" of ");
    out.number(usize::from(channel.capacity()));
    add_messages(live, channel, out);
}

// A channel as a variable.
fn channel(alloc: Global, live: &Live<'_, '_>, number: usize) -> Result<Value, AllocError> {
    let mut name = Writer::new(alloc);
    add_channel(live, number, &mut name);
    let mut value = Writer::new(alloc);
    add_contents(live, number, &mut value);
    let name = words_of(&name)?;
    let value = words_of(&value)?;
    let reference = match channel_at(live, number) {
        Some(channel) if channel.len() > 0 => reference_of(Listed::Messages(number)),
        _ => 0,
    };
    json!(in alloc; {"name": name, "value": value, "variablesReference": reference})
}

/// The channels that are asked for.
pub fn channels_of(
    alloc: Global,
    live: &Live<'_, '_>,
    page: ItemRange,
) -> Result<Value, AllocError> {
    let mut list = Vec::new(alloc);
    let end = page
        .start
        .saturating_add(page.count)
        .min(live.channels().len());
    for before in page.start..end {
        list.push(channel(alloc, live, before + 1)?)?;
    }
    Ok(Value::Array(list))
}

// A message as a variable, whose name is its place.
fn message(
    live: &Live<'_, '_>,
    channel: &Channel,
    at: usize,
    alloc: Global,
) -> Result<Value, AllocError> {
    let mut name = Writer::new(alloc);
    name.add(b"[");
    name.number(at);
    name.add(b"]");
    let mut value = Writer::new(alloc);
    if at < channel.len() {
        add_message(live, channel.types(), channel.message(at), &mut value);
    }
    let name = words_of(&name)?;
    let value = words_of(&value)?;
    variable(alloc, name.as_str(), value.as_str())
}

/// The messages of a channel that are asked for, the oldest first.
pub fn messages_of(
    alloc: Global,
    live: &Live<'_, '_>,
    number: usize,
    page: ItemRange,
) -> Result<Value, AllocError> {
    let mut list = Vec::new(alloc);
    let Some(channel) = channel_at(live, number) else {
        return Ok(Value::Array(list));
    };
    let end = page.start.saturating_add(page.count).min(channel.len());
    for at in page.start..end {
        list.push(message(live, channel, at, alloc)?)?;
    }
    Ok(Value::Array(list))
}
