//! A row of a chart.

ghost use Rattle.view_text.specs.Written.{Stays};

use std::alloc::Global;
use view_text::writer::Writer;

// How many bytes the number of a step has, with the blanks before it.
const STEP_WIDTH: usize = 6;

/// Writes a label of at most so many bytes: of a longer one the last is a mark.
fn add_cut(label: &[u8], most: usize, out: &mut Writer)
    ensures { Stays out.old out.new }
{
    if label.len() <= most {
        out.add(label);
    } else if most > 0 {
        out.add(&label[..most - 1]);
        out.add(b"~");
    }
}

// The bytes without the blanks at their end.
fn without_blanks(bytes: &[u8]) -> &[u8] {
    for blanks in 0..bytes.len() {
        let end = bytes.len() - blanks;
        if bytes[end - 1] != b' ' {
            return &bytes[..end];
        }
    }
    &bytes[..0]
}

/// A row that is written column by column, each of so many bytes.
#[derive(Drop)]
pub struct ChartRow {
    text: Writer,
    width: usize,
}

impl ChartRow {
    /// The row of a step.
    pub fn new(alloc: Global, width: usize, step: usize) -> ChartRow {
        let mut digits = Writer::new(alloc);
        digits.number(step);
        let mut text = Writer::new(alloc);
        text.blanks(STEP_WIDTH.saturating_sub(digits.len()));
        text.join(&digits);
        text.add(b" ");
        ChartRow { text, width }
    }

    /// Writes a column: a mark, and a label behind it.
    pub fn column(&mut self, mark: &[u8], label: &[u8])
        ensures { Stays self.old.text self.new.text }
    {
        let start = self.text.len();
        self.text.add(mark);
        add_cut(label, self.width.saturating_sub(2), &mut self.text);
        let written = self.text.len().saturating_sub(start);
        self.text.blanks(self.width.saturating_sub(written));
    }

    /// Writes so many columns of processes that live.
    pub fn living(&mut self, count: usize)
        ensures { Stays self.old.text self.new.text }
    {
        for _turn in 0..count {
            self.column(b"|", b"");
        }
    }

    // How many bytes an arrow over so many columns has between its ends.
    fn room(&self, columns: usize) -> usize {
        self.width.saturating_mul(columns).saturating_sub(3)
    }

    /// Writes an arrow over so many columns, to the right or to the left.
    pub fn arrow(&mut self, columns: usize, to_right: bool, label: &[u8])
        ensures { Stays self.old.text self.new.text }
    {
        let room = self.room(columns);
        self.text.add(if to_right { b"|-" } else { b"|<" });
        let start = self.text.len();
        add_cut(label, room, &mut self.text);
        for _turn in self.text.len().saturating_sub(start)..room {
            self.text.add(b"-");
        }
        self.text.add(if to_right { b">" } else { b"-" });
    }

    /// Writes words behind the number of the step.
    pub fn words(&mut self, words: &[u8])
        ensures { Stays self.old.text self.new.text }
    {
        self.text.add(words);
    }

    /// Writes a number.
    pub fn number(&mut self, number: usize)
        ensures { Stays self.old.text self.new.text }
    {
        self.text.number(number);
    }

    /// Writes the row, without the blanks at its end.
    pub fn end(&self, out: &mut Writer)
        ensures { Stays out.old out.new }
    {
        out.add(without_blanks(self.text.bytes()));
        out.add(b"\n");
        if self.text.is_refused() {
            out.refuse();
        }
    }
}
