//! Why a process has no move, in words.

ghost use Rattle.view_text.specs.Written.{Stays};

use crate::because::Because;
use crate::offers::offered;
use crate::reads::{ReadValue, Reads, add_reads};
use crate::waits::Wait;
use pml_channel::channel::Channel;
use pml_eval::clip::clip;
use pml_eval::eval::{eval, want};
use pml_program::expr::{Expr, Target, Want};
use pml_program::form::Form;
use pml_program::program::{Action, Basic};
use pml_tree::tree::Search;
use pml_value::view::View;
use promela_process::sought::Sought;
use promela_run::moves::Pick;
use run_search::executable::named;
use run_state::live::Live;
use view_cells::cells::{add_cell, add_value};
use view_cells::channels::{add_channel_word, add_message, channel_at};
use view_cells::processes::add_process;
use view_text::writer::Writer;

fn number_of(number: i32) -> usize {
    number.max(0) as usize
}

// Writes `len(NAME) = N`.
fn add_length(live: &Live<'_, '_>, number: i32, out: &mut Writer)
    ensures { Stays out.old out.new }
{
    out.add(b"len(");
    if number > 0 {
        add_channel_word(live, number_of(number), out);
    }
    out.add(b") = ");
    if let Some(channel) = channel_at(live, number_of(number)) {
        out.number(channel.len());
    }
}

/// Writes what is read, with its value: `x = 1`.
pub fn add_read(live: &Live<'_, '_>, view: &View<'_>, read: ReadValue, out: &mut Writer)
    ensures { Stays out.old out.new }
{
    match read {
        ReadValue::Cell(place) => add_cell(live, place, out),
        ReadValue::Pid => {
            out.add(b"_pid = ");
            out.number(usize::from(view.pid));
        }
        ReadValue::ProcessCount => {
            out.add(b"_nr_pr = ");
            out.number(usize::from(view.process_count));
        }
        ReadValue::Timeout => out.add(if view.timeout {
            b"timeout = 1"
        } else {
            b"timeout = 0"
        }),
        ReadValue::Length(number) => add_length(live, number, out),
    }
}

/// Writes what is read, one behind another.
pub fn add_all(live: &Live<'_, '_>, view: &View<'_>, reads: &Reads, out: &mut Writer)
    ensures { Stays out.old out.new }
{
    let mut is_first = true;
    for read in reads.items() {
        out.add(if is_first { b": " } else { b", " });
        is_first = false;
        add_read(live, view, *read, out);
    }
    out.keep(reads.answer());
}

fn add_false(live: &Live<'_, '_>, view: &View<'_>, e: &Expr, out: &mut Writer)
    ensures { Stays out.old out.new }
{
    out.add(b"false");
    let mut reads = Reads::new(out.allocator());
    add_reads(e, view, &mut reads);
    add_all(live, view, &reads, out);
}

fn form_of(types: &[Form], at: usize) -> Form {
    match types.get(at) {
        Some(form) => *form,
        None => Form::Unknown,
    }
}

// Writes what a receive asks of a field.
fn add_want(live: &Live<'_, '_>, view: &View<'_>, form: Form, wanted: &Want, out: &mut Writer)
    ensures { Stays out.old out.new }
{
    match want(wanted, view) {
        Ok(Sought::Exactly(number)) => add_value(live, form, number, out),
        _ => out.add(b"_"),
    }
}

// Writes what a receive asks of the fields: `(ping, _)`.
fn add_wanted(
    live: &Live<'_, '_>,
    view: &View<'_>,
    types: &[Form],
    wants: &[Want],
    out: &mut Writer,
)
    ensures { Stays out.old out.new }
{
    out.add(b"(");
    for i in 0..wants.len() {
        if i > 0 {
            out.add(b", ");
        }
        add_want(live, view, form_of(types, i), &wants[i], out);
    }
    out.add(b")");
}

fn add_field(live: &Live<'_, '_>, view: &View<'_>, form: Form, field: &Expr, out: &mut Writer)
    ensures { Stays out.old out.new }
{
    match eval(field, view) {
        Ok(number) => add_value(live, form, clip(form, number), out),
        Err(_) => out.add(b"?"),
    }
}

// Writes what a send would send: `(ping, 1)`.
fn add_sent(live: &Live<'_, '_>, view: &View<'_>, types: &[Form], fields: &[Expr], out: &mut Writer)
    ensures { Stays out.old out.new }
{
    out.add(b"(");
    for i in 0..fields.len() {
        if i > 0 {
            out.add(b", ");
        }
        add_field(live, view, form_of(types, i), &fields[i], out);
    }
    out.add(b")");
}

// Writes which message stands in the way of a receive.
fn add_other_message(live: &Live<'_, '_>, channel: &Channel, name: &[u8], out: &mut Writer)
    ensures { Stays out.old out.new }
{
    out.add(b"the oldest message of ");
    out.add(name);
    out.add(b" is ");
    if channel.len() > 0 {
        add_message(live, channel.types(), channel.message(0), out);
    }
    out.add(b", not ");
}

fn add_receive_from(
    live: &Live<'_, '_>,
    view: &View<'_>,
    named: (&[u8], &Channel),
    search: Search,
    wants: &[Want],
    out: &mut Writer,
)
    ensures { Stays out.old out.new }
{
    let (name, channel) = named;
    if channel.capacity() == 0 {
        out.add(b"no process sends ");
        add_wanted(live, view, channel.types(), wants, out);
        out.add(b" to ");
        out.add(name);
        return;
    }
    if channel.len() == 0 {
        out.add(name);
        out.add(b" is empty");
        return;
    }
    match search {
        Search::First => add_other_message(live, channel, name, out),
        Search::Matching => {
            out.add(b"no message of ");
            out.add(name);
            out.add(b" is ");
        }
    }
    add_wanted(live, view, channel.types(), wants, out);
}

fn add_send_to(
    live: &Live<'_, '_>,
    view: &View<'_>,
    named: (&[u8], &Channel),
    fields: &[Expr],
    out: &mut Writer,
)
    ensures { Stays out.old out.new }
{
    let (name, channel) = named;
    if channel.capacity() == 0 {
        out.add(b"no process receives ");
        add_sent(live, view, channel.types(), fields, out);
        out.add(b" from ");
        out.add(name);
    } else {
        out.add(name);
        out.add(b" is full");
    }
}

const IN_ESCAPE: &[u8] = b"a statement of an escape can be taken";

fn name_of(live: &Live<'_, '_>, number: i32, out: &Writer) -> Writer {
    let mut name = Writer::new(out.allocator());
    add_channel_word(live, number_of(number), &mut name);
    name
}

fn add_receive(
    live: &Live<'_, '_>,
    view: &View<'_>,
    target: &Target,
    search: Search,
    wants: &[Want],
    out: &mut Writer,
)
    ensures { Stays out.old out.new }
{
    match named(view, target, wants.len()) {
        Ok((number, channel)) => {
            let name = name_of(live, number, out);
            add_receive_from(live, view, (name.bytes(), channel), search, wants, out);
            out.keep_refusal(&name);
        }
        Err(_) => out.add(IN_ESCAPE),
    }
}

fn add_send(
    live: &Live<'_, '_>,
    view: &View<'_>,
    target: &Target,
    fields: &[Expr],
    out: &mut Writer,
)
    ensures { Stays out.old out.new }
{
    match named(view, target, fields.len()) {
        Ok((number, channel)) => {
            let name = name_of(live, number, out);
            add_send_to(live, view, (name.bytes(), channel), fields, out);
            out.keep_refusal(&name);
        }
        Err(_) => out.add(IN_ESCAPE),
    }
}

fn add_action(live: &Live<'_, '_>, view: &View<'_>, action: &Action<'_>, out: &mut Writer)
    ensures { Stays out.old out.new }
{
    match action {
        Action::Else => out.add(b"another statement can be taken"),
        Action::Holds(e) => add_false(live, view, e, out),
        Action::Run(_) => out.add(b"255 processes are alive"),
        Action::Send(target, _, fields) => add_send(live, view, target, fields.as_slice(), out),
        Action::Receive(target, search, _, wants) => {
            add_receive(live, view, target, *search, wants.as_slice(), out)
        }
        _ => out.add(IN_ESCAPE),
    }
}

fn add_basic(live: &Live<'_, '_>, view: &View<'_>, basic: Option<&Basic<'_>>, out: &mut Writer)
    ensures { Stays out.old out.new }
{
    match basic {
        Some(Basic::Plain(action)) => add_action(live, view, action, out),
        Some(Basic::DStep(_)) => out.add(b"nothing can be taken first in it"),
        _ => out.add(IN_ESCAPE),
    }
}

fn add_pick(live: &Live<'_, '_>, pick: Pick, timeout: bool, out: &mut Writer)
    ensures { Stays out.old out.new }
{
    if let Some((view, basic)) = offered(live, pick, timeout) {
        add_basic(live, &view, basic, out);
    }
}

/// Writes why, with what it reads.
pub fn add_words(live: &Live<'_, '_>, wait: &Wait, out: &mut Writer)
    ensures { Stays out.old out.new }
{
    match (wait.because, wait.pick) {
        (Because::Held(holder), _) => {
            add_process(live, holder, out);
            out.add(b" has exclusive control");
        }
        (Because::Younger(youngest), _) => {
            out.add(b"it can end when ");
            add_process(live, youngest, out);
            out.add(b" has ended");
        }
        (_, Some(pick)) => add_pick(live, pick, wait.timeout, out),
        _ => {}
    }
}
