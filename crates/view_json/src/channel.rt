//! Channels.

ghost use Rattle.std.specs.Prelude.{◌≡◌, ◌<◌, ◌++◌, ℕ, List, Option, Some, length, pos, codes, slice_index_or};
ghost use Rattle.std.specs.List.{flat_map};
ghost use Rattle.std.specs.Fmt.{decimal};
ghost use Rattle.pml_program.specs.declared.form.Form.TheVariants as kind;
ghost use Rattle.promela_run.specs.State.{channel_at};
ghost use Rattle.view_tokens.specs.Printed.{Writes};
ghost use Rattle.view_json.specs.Objects.{types_of, text, member, array, scalar_name, form_token, field, fields, message, messages, or_null, contents, channel_heading, AddsChannel};

use crate::objects::{number, value, whole};
use pml_channel::channel::Channel;
use pml_program::form::Form;
use pml_tree::tree::Scalar;
use run_state::live::Live;
use view_cells::channels::{add_channel_name, channel_at};
use view_text::writer::Writer;
use view_tokens::tokens::Json;

fn scalar_name(scalar: Scalar) -> &'static str
    ensures { result.now ≡ scalar_name scalar }
{
    match scalar {
        Scalar::Bit => "bit",
        Scalar::Bool => "bool",
        Scalar::Byte => "byte",
        Scalar::Chan => "chan",
        Scalar::Mtype => "mtype",
        Scalar::Pid => "pid",
        Scalar::Short => "short",
        Scalar::Int => "int",
    }
}

// Writes how wide a type is.
fn unsigned(json: &mut Json, width: u32)
    ensures { Writes json.old json.new (text (codes "unsigned : " ++ decimal width)) }
{
    let mut text = Writer::new(json.allocator());
    text.add(b"unsigned : ");
    text.number(width as usize);
    whole(json, &text);
}

fn form_name(json: &mut Json, form: Form)
    ensures { Writes json.old json.new (form_token form) }
{
    match form {
        Form::Plain(scalar) => json.string(scalar_name(scalar)),
        Form::Unsigned(width) => unsigned(json, width),
        _ => json.string("?"),
    }
}

fn form_of(types: &[Form], at: usize) -> Form
    ensures { result ≡ slice_index_or types.now at kind.Unknown }
{
    match types.get(at) {
        Some(form) => *form,
        None => Form::Unknown,
    }
}

fn field(live: &Live<'_, '_>, json: &mut Json, types: &[Form], numbers: &[i32], at: usize)
    requires { at < length numbers.now }
    ensures { Writes json.old json.new (field live.now.state.program types.now numbers.now at) }
{
    let form = form_of(types, at);
    let number = numbers[at];
    value(live, json, form, number);
}

fn fields(live: &Live<'_, '_>, json: &mut Json, types: &[Form], numbers: &[i32])
    ensures { Writes json.old json.new (fields live.now.state.program types.now numbers.now) }
{
    for at in 0..numbers.len() {
        field(live, json, types, numbers, at);
    }
}

/// Writes the fields of a message, as an array.
pub fn message(live: &Live<'_, '_>, json: &mut Json, types: &[Form], numbers: &[i32])
    ensures { Writes json.old json.new (message live.now.state.program types.now numbers.now) }
{
    json.begin_array();
    fields(live, json, types, numbers);
    json.end_array();
}

fn form_names(json: &mut Json, types: &[Form])
    ensures { Writes json.old json.new (flat_map form_token types.now) }
{
    for form in types {
        form_name(json, *form);
    }
}

fn types(json: &mut Json, types: &[Form])
    ensures { Writes json.old json.new (types_of types.now) }
{
    json.key("fields");
    json.begin_array();
    form_names(json, types);
    json.end_array();
}

fn all_messages(live: &Live<'_, '_>, json: &mut Json, channel: &Channel)
    ensures { Writes json.old json.new (flat_map (message live.now.state.program channel.now.types) channel.now.messages) }
{
    for place in 0..channel.len() {
        message(live, json, channel.types(), channel.message(place));
    }
}

fn messages(live: &Live<'_, '_>, json: &mut Json, channel: &Channel)
    ensures { Writes json.old json.new (messages live.now.state.program channel.now) }
{
    json.key("messages");
    json.begin_array();
    all_messages(live, json, channel);
    json.end_array();
}

fn channel_name(live: &Live<'_, '_>, json: &mut Json, n: usize)
    ensures { (name : Option (List ℕ)) × Writes json.old json.new (or_null name) }
{
    let mut name = Writer::new(json.allocator());
    if add_channel_name(live, n, &mut name) {
        whole(json, &name);
    } else {
        json.null();
    }
}

// Writes what a channel has.
fn contents(live: &Live<'_, '_>, json: &mut Json, channel: &Channel)
    ensures { Writes json.old json.new (contents live.now.state.program (Some channel.now)) }
{
    number(json, "capacity", usize::from(channel.capacity()));
    types(json, channel.types());
    messages(live, json, channel);
}

// Writes what the channel with this number has.
fn contents_at(live: &Live<'_, '_>, json: &mut Json, n: usize)
    ensures { Writes json.old json.new (contents live.now.state.program (channel_at live.now.state.channels (pos n))) }
{
    if let Some(channel) = channel_at(live, n) {
        contents(live, json, channel);
    }
}

// Writes the number of a channel and its name.
pub(crate) fn channel_heading(live: &Live<'_, '_>, json: &mut Json, n: usize)
    ensures { (name : Option (List ℕ)) × Writes json.old json.new (channel_heading n name) }
{
    number(json, "chan", n);
    json.key("name");
    channel_name(live, json, n);
}

/// Writes a channel.
pub fn channel(live: &Live<'_, '_>, json: &mut Json, n: usize)
    ensures { AddsChannel live.now.state n json.old json.new }
{
    json.begin_object();
    channel_heading(live, json, n);
    contents_at(live, json, n);
    json.end_object();
}
