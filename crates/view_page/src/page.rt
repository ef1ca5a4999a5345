//! The page, and the steps as a list that is read without scripts.

ghost use Rattle.view_text.specs.Written.{Adds};
ghost use Rattle.view_page.specs.Page.{shown_byte, shown, foreign, held_byte, held, source, choice_text, printed_text, step_item, fault_item, end_item};

use crate::parts::{TO_HEADING, TO_SOURCE, TO_TITLE};
use diagnostics::Fault;
use view_foreign::shown::add_shown;
use view_text::writer::Writer;

fn add_escaped_byte(byte: u8, out: &mut Writer)
    ensures { Adds out.old out.new (shown_byte byte) }
{
    match byte {
        b'\r' => out.add(b"&#13;"),
        b'&' => out.add(b"&amp;"),
        b'<' => out.add(b"&lt;"),
        b'>' => out.add(b"&gt;"),
        b'"' => out.add(b"&quot;"),
        _ => out.add(&[byte]),
    }
}

// Writes bytes so that HTML shows them as they are.
fn add_escaped(bytes: &[u8], out: &mut Writer)
    ensures { Adds out.old out.new (shown bytes.now) }
{
    for byte in bytes {
        add_escaped_byte(*byte, out);
    }
}

// Writes bytes that others wrote so that HTML shows them as a terminal does.
fn add_foreign(bytes: &[u8], out: &mut Writer)
    ensures { Adds out.old out.new (foreign bytes.now) }
{
    let mut text = Writer::new(out.allocator());
    add_shown(bytes, &mut text);
    add_escaped(text.bytes(), out);
    out.keep_refusal(&text);
}

fn add_held_byte(byte: u8, out: &mut Writer)
    ensures { Adds out.old out.new (held_byte byte) }
{
    if byte == b'<' {
        out.add(b"\\u003c");
    } else {
        out.add(&[byte]);
    }
}

// Writes lines of JSON so that nothing in them ends the element that holds them.
pub(crate) fn add_lines(lines: &[u8], out: &mut Writer)
    ensures { Adds out.old out.new (held lines.now) }
{
    for byte in lines {
        add_held_byte(*byte, out);
    }
}

/// What a page is made of: the name of the model and its text, the steps as items of a list, and the lines of JSON.
#[derive(Clone, Copy)]
pub struct Contents<'c> {
    pub name: &'c [u8],
    pub model: &'c [u8],
    pub steps: &'c [u8],
    pub lines: &'c [u8],
}

pub(crate) fn add_part(part: &str, out: &mut Writer)
    ensures { Adds out.old out.new part.now }
{
    out.add(part.as_bytes());
}

// Writes what stands before the steps.
pub(crate) fn add_source(contents: Contents<'_>, out: &mut Writer)
    ensures { Adds out.old out.new (source contents.entry) }
{
    add_part(TO_TITLE, out);
    add_foreign(contents.name, out);
    add_part(TO_HEADING, out);
    add_foreign(contents.name, out);
    add_part(TO_SOURCE, out);
    add_foreign(contents.model, out);
}

// Writes which choice a step was, where it was one of several.
fn add_choice(choice: usize, of: usize, out: &mut Writer)
    ensures { Adds out.old out.new (choice_text choice of) }
{
    if of > 1 {
        out.add(b", choice ");
        out.number(choice);
        out.add(b" of ");
        out.number(of);
    }
}

// Writes what a step printed, if anything.
fn add_printed(printed: &[u8], out: &mut Writer)
    ensures { Adds out.old out.new (printed_text printed.now) }
{
    if printed.is_empty() {
        return;
    }
    let mut quoted = Writer::new(out.allocator());
    quoted.quoted(printed);
    out.add(b", prints ");
    add_foreign(quoted.bytes(), out);
    if quoted.is_refused() {
        out.refuse();
    }
}

/// Writes a step as an item of the list: its text, which choice it was, and what it printed.
pub fn add_item(text: &[u8], printed: &[u8], choice: usize, of: usize, out: &mut Writer)
    ensures { Adds out.old out.new (step_item text.now printed.now choice of) }
{
    out.add(b"<li>");
    add_foreign(text, out);
    add_choice(choice, of, out);
    add_printed(printed, out);
    out.add(b"</li>\n");
}

/// Writes a step that came to a fault.
pub fn add_fault_item(text: &[u8], fault: Fault, out: &mut Writer)
    ensures { Adds out.old out.new (fault_item text.now fault) }
{
    out.add(b"<li>");
    add_foreign(text, out);
    out.add(b": fault F");
    out.number(fault.number() as usize);
    out.add(b" (");
    add_escaped(diagnostic_words::of_fault(fault), out);
    out.add(b")</li>\n");
}

/// Writes how the run ends.
pub fn add_end_item(end: &[u8], out: &mut Writer)
    ensures { Adds out.old out.new (end_item end.now) }
{
    out.add(b"<li>end: ");
    add_escaped(end, out);
    out.add(b"</li>\n");
}
