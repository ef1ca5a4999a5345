//! Items one behind another, on lines that a terminal holds.

ghost use Rattle.view_text.specs.Written.{Stays};

use crate::writer::Writer;

/// Where a line of a terminal ends.
const COLUMNS: usize = 80;

/// Items two blanks apart. Where the next would pass the end of a line, a line begins, behind so many blanks.
#[derive(Drop)]
pub struct FilledLines {
    start: usize,
    indent: usize,
    is_first: bool,
}

impl FilledLines {
    /// On the line that begins at `start`, behind whose heading the next item stands.
    pub fn new(start: usize, indent: usize) -> FilledLines {
        FilledLines {
            start,
            indent,
            is_first: false,
        }
    }

    // Whether an item ends within the line.
    fn has_room(&self, written: usize, item: &[u8]) -> bool {
        let width = written.saturating_sub(self.start);
        width.saturating_add(item.len()).saturating_add(2) <= COLUMNS
    }

    /// Writes an item.
    pub fn add(&mut self, item: &Writer, out: &mut Writer)
        ensures { Stays out.old out.new }
    {
        if self.has_room(out.len(), item.bytes()) {
            out.add(b"  ");
        } else {
            out.add(b"\n");
            self.start = out.len();
            out.blanks(self.indent);
        }
        out.join(item);
    }
}
