//! The text of the model, with the processes at their lines.

ghost use Rattle.view_text.specs.Written.{Stays};

use run_state::live::Live;
use view_cells::processes::line_of;
use view_text::writer::Writer;

// Where the numbers of lines begin.
const BEHIND_MARKS: usize = 6;

// Writes the numbers of the processes that stand at a line, and its number.
fn add_marks(live: &Live<'_, '_>, line: u32, out: &mut Writer)
    ensures { Stays out.old out.new }
{
    let start = out.len();
    for process in 0..live.process_count() {
        if line_of(live, process) == line {
            if out.len() > start {
                out.add(b",");
            }
            out.number(process);
        }
    }
    if out.len() > start {
        out.add(b">");
    }
    out.pad(start, BEHIND_MARKS);
    out.number(line as usize);
    out.add(b"  ");
}

/// Writes the text of the model.
pub fn add_source(live: &Live<'_, '_>, text: &[u8], out: &mut Writer)
    ensures { Stays out.old out.new }
{
    let mut line = 1u32;
    add_marks(live, line, out);
    for byte in text {
        out.add(&[*byte]);
        if *byte == b'\n' {
            line = line.saturating_add(1);
            add_marks(live, line, out);
        }
    }
    out.add(b"\n");
}
