//! Channels, their names and their messages.

ghost use Rattle.std.specs.Prelude.{◌≡◌, pos};
ghost use Rattle.std.specs.Option.{option_copied};
ghost use Rattle.promela_run.specs.State.{channel_at};
ghost use Rattle.view_text.specs.Written.{Stays};

use crate::cells::{add_path, add_value};
use crate::made::made_for;
use crate::processes::add_name;
use pml_channel::channel::Channel;
use pml_program::form::Form;
use promela_run::live_channel::LiveChannel;
use run_state::live::Live;
use view_text::writer::Writer;

fn channel_in(channels: &[LiveChannel], number: usize) -> Option<&Channel>
    ensures { option_copied result ≡ channel_at channels.now (pos number) }
{
    if number == 0 {
        return None;
    }
    channels.get(number - 1).map(|live| &live.channel)
}

/// The channel with this number, from 1 on.
pub fn channel_at<'w>(live: &'w Live<'_, '_>, number: usize) -> Option<&'w Channel>
    ensures { option_copied result ≡ channel_at live.now.state.channels (pos number) }
{
    channel_in(live.channels(), number)
}

// Writes whose a cell is: `P[2].` of a process.
fn add_owner(live: &Live<'_, '_>, frame: usize, out: &mut Writer)
    ensures { Stays out.old out.new }
{
    if frame > 0 {
        add_name(live, frame - 1, out);
        out.add(b"[");
        out.number(frame - 1);
        out.add(b"].");
    }
}

/// Writes the name of a channel, by the cell that it was made for: `q[1]`, or `P[2].q` of a process. Whether it has one.
pub fn add_channel_name(live: &Live<'_, '_>, number: usize, out: &mut Writer) -> bool
    ensures { Stays out.old out.new }
{
    let Some(place) = made_for(live, number) else {
        return false;
    };
    add_owner(live, place.frame, out);
    add_path(live, place, out);
    true
}
// Writes `chan N`.
fn add_number(number: usize, out: &mut Writer)
    ensures { Stays out.old out.new }
{
    out.add(b"chan ");
    out.number(number);
}

/// Writes the name of a channel without its process, or `chan N`.
pub fn add_short_name(live: &Live<'_, '_>, number: usize, out: &mut Writer)
    ensures { Stays out.old out.new }
{
    match made_for(live, number) {
        Some(place) => add_path(live, place, out),
        None => add_number(number, out),
    }
}

/// Writes `chan N NAME`.
pub fn add_channel(live: &Live<'_, '_>, number: usize, out: &mut Writer)
    ensures { Stays out.old out.new }
{
    add_number(number, out);
    let mut name = Writer::new(out.allocator());
    if add_channel_name(live, number, &mut name) {
        out.add(b" ");
        out.join(&name);
    }
}

/// Writes the name of a channel, or `chan N` where it has none.
pub fn add_channel_word(live: &Live<'_, '_>, number: usize, out: &mut Writer)
    ensures { Stays out.old out.new }
{
    if !add_channel_name(live, number, out) {
        add_number(number, out);
    }
}

fn form_of(types: &[Form], at: usize) -> Form {
    match types.get(at) {
        Some(form) => *form,
        None => Form::Unknown,
    }
}

/// Writes the fields of a message, with this between them: `ping, 1`.
pub fn add_fields(
    live: &Live<'_, '_>,
    types: &[Form],
    fields: &[i32],
    between: &[u8],
    out: &mut Writer,
)
    ensures { Stays out.old out.new }
{
    for i in 0..fields.len() {
        if i > 0 {
            out.add(between);
        }
        add_value(live, form_of(types, i), fields[i], out);
    }
}

/// Writes a message: `(ping, 1)`.
pub fn add_message(live: &Live<'_, '_>, types: &[Form], fields: &[i32], out: &mut Writer)
    ensures { Stays out.old out.new }
{
    out.add(b"(");
    add_fields(live, types, fields, b", ", out);
    out.add(b")");
}
