//! Lists that are cut for people, with a count of what is left out.

ghost use Rattle.view_text.specs.Written.{Stays};

use view_text::writer::Writer;

/// So many items of a list are shown, unless all are asked for.
pub const MOST_SHOWN: usize = 1000;

/// How much of a list is still to be shown.
#[derive(Clone, Copy, Debug)]
pub struct Room {
    left: usize,
}

impl Room {
    /// For a list of which all is shown, or the first 1000 items.
    pub fn new(is_all: bool) -> Room {
        Room {
            left: if is_all { usize::MAX } else { MOST_SHOWN },
        }
    }

    /// Takes room for so many items. For how many there was some.
    pub fn take(&mut self, count: usize) -> usize {
        let shown = count.min(self.left);
        self.left -= shown;
        shown
    }
}

// Writes three digits.
fn add_three(number: usize, out: &mut Writer)
    ensures { Stays out.old out.new }
{
    out.number(number / 100 % 10);
    out.number(number / 10 % 10);
    out.number(number % 10);
}

/// Writes a number with a comma before each three of its digits.
pub fn add_large(number: usize, out: &mut Writer)
    ensures { Stays out.old out.new }
{
    if number >= 1_000_000_000 {
        out.number(number);
        return;
    }
    if number >= 1_000_000 {
        out.number(number / 1_000_000);
        out.add(b",");
        add_three(number / 1000 % 1000, out);
        out.add(b",");
        add_three(number % 1000, out);
    } else if number >= 1000 {
        out.number(number / 1000);
        out.add(b",");
        add_three(number % 1000, out);
    } else {
        out.number(number);
    }
}

/// Writes how many items are left out, and what shows them: `.. and 8,355,000 more (moves all)`.
pub fn add_more(count: usize, command: &str, out: &mut Writer)
    ensures { Stays out.old out.new }
{
    out.add(b".. and ");
    add_large(count, out);
    out.add(b" more (");
    out.add(command.as_bytes());
    out.add(b" all)");
}

/// Writes that as a line, where something is left out.
pub fn add_more_line(count: usize, command: &str, out: &mut Writer)
    ensures { Stays out.old out.new }
{
    if count > 0 {
        add_more(count, command, out);
        out.add(b"\n");
    }
}
