//! Why a run stopped.

ghost use Rattle.view_text.specs.Written.{Stays};

use crate::watches::Watches;
use view_state::cut::add_large;
use view_text::writer::Writer;

/// Why a run stopped.
#[derive(Clone, Copy, Debug, PartialEq, Eq)]
pub enum Stopped {
    /// Where it was to stop.
    Met,
    /// At the break with this number.
    Break(usize),
    /// Where one of several moves is to be chosen.
    Choice,
    /// Where the process with this number has no move alone.
    Blocked(usize),
    /// Where no move is left.
    End,
    /// Before a step that comes to a fault.
    Fault,
    /// Behind so many steps.
    Steps(usize),
    /// Behind as many steps as a session takes.
    Limit,
    /// At the first state, on the way back.
    Start,
}

/// Writes that a break stopped a run: `stopped: break 1, x == 2`.
pub fn add_break(number: usize, breaks: &Watches, out: &mut Writer)
    ensures { Stays out.old out.new }
{
    out.add(b"stopped: break ");
    out.number(number);
    out.add(b", ");
    breaks.add_words(number, out);
    out.add(b"\n");
}

// Writes why a run stopped, by a number.
fn add_counted(front: &str, number: usize, back: &str, out: &mut Writer)
    ensures { Stays out.old out.new }
{
    out.add(b"stopped: ");
    out.add(front.as_bytes());
    add_large(number, out);
    out.add(back.as_bytes());
}

/// Writes why a run stopped, which was to stop where these words say: `stopped: a choice`.
pub fn add_stop(stopped: Stopped, words: &[u8], breaks: &Watches, out: &mut Writer)
    ensures { Stays out.old out.new }
{
    match stopped {
        Stopped::Met => {
            out.add(b"stopped: ");
            out.add(words);
            out.add(b"\n");
        }
        Stopped::Break(number) => add_break(number, breaks, out),
        Stopped::Choice => out.add(b"stopped: a choice\n"),
        Stopped::Blocked(process) => {
            add_counted("process ", process, " has no move by itself\n", out);
        }
        Stopped::End => out.add(b"stopped: the end\n"),
        Stopped::Fault => out.add(b"stopped: a fault\n"),
        Stopped::Steps(count) => add_counted("", count, " steps\n", out),
        Stopped::Limit => out.add(b"stopped: step limit\n"),
        Stopped::Start => out.add(b"stopped: the first state\n"),
    }
}
